ghost use Rattle.std.specs.Prelude.{◌≡◌, ◌+◌, ◌<◌, ◌≤◌, ◌^◌, IfOk, IfSome, IfNone, [], length, take, drop, slice_index};
ghost use Rattle.std.specs.Arc.{arc_value};
ghost use Rattle.class_pages.specs.Choosing.{IsAfter, IsPicked, IsSame};
ghost use Rattle.class_pages.specs.Fitting.{EachFits};
ghost use Rattle.view_meaning.specs.Classes as meaning;
ghost use Rattle.view_meaning.specs.Survey.{record_count, format_of};

use crate::chooser::Chooser;
use class_bits::class_of;
use las_points::{class_place, xyz};
use las_survey::Survey;
use std::alloc::Global;
use std::marker::Model;
use std::sync::Arc;
use view_base::{OutOfMemory, Point};

/// How many classes a page has; the last page has what is left.
pub const PAGE: usize = 4096;

/// The classes of up to `PAGE` records that follow one another. Contracts see their list.
#[derive(Drop)]
pub struct Page {
    list: Vec<u8>,
}

impl Model for Page {
    ghost use Rattle.std.specs.Prelude.{ℕ, List};

    ghost Value = { List ℕ };

    ghost view = { λ a. a.list.items };
}

impl Page {
    /// The classes as a slice, in the order of the records.
    pub fn as_slice(&self) -> &[u8]
        ensures { result.now ≡ self.now }
    {
        &self.list
    }

    /// A page of these classes.
    pub(crate) fn copied(alloc: Global, classes: &[u8]) -> Result<Page, OutOfMemory>
        ensures { IfOk result (λ page. page ≡ classes.now) }
    {
        let list = Vec::from_slice(alloc, classes)?;
        Ok(Page { list })
    }

    /// Gives the class at a place the one that is picked for a point, and answers how many classes
    /// change.
    #[inline]
    pub(crate) fn change<T: Chooser>(&mut self, place: usize, p: Point, chooser: &T) -> u64
        requires { place < length self.old }
        ensures picked { IsPicked (T.picks chooser.now) p place self.old self.new result }
        ensures byte { T.picks chooser.now p (slice_index self.old place) < 256 }
    {
        let class = self.list[place];
        let after = chooser.choose(p, class);
        self.list[place] = after;
        u64::from(after != class)
    }
}

/// The page of `count` records from record `first` on, as the file has their classes.
pub(crate) fn page_read(
    alloc: Global,
    survey: &Survey,
    first: u32,
    count: u32,
) -> Result<Arc<Page>, OutOfMemory>
    requires within { first + count ≤ record_count survey.now }
    requires few { first + count < 2 ^ 32 }
    ensures classes { IfOk result (λ page. arc_value page ≡ take count (drop first (meaning.classes survey.now []))) }
    ensures top { IfOk result (λ page. EachFits (format_of survey.now) (arc_value page)) }
{
    let mut list = vec![in alloc; 0u8; count as usize]?;
    read_classes(&mut list, survey, first);
    Ok(Arc::new(alloc, Page { list })?)
}

/// Reads the class of each record from record `first` on.
fn read_classes(list: &mut [u8], survey: &Survey, first: u32)
    requires within { first + length list.old ≤ record_count survey.now }
    requires few { first + length list.old < 2 ^ 32 }
    ensures classes { list.new ≡ take (length list.old) (drop first (meaning.classes survey.now [])) }
    ensures top { EachFits (format_of survey.now) list.new }
{
    let format = survey.header().format;
    let place = class_place(format);
    for i in 0..list.len() {
        list[i] = class_of(format, survey.point_bytes(first + i as u32)[place]);
    }
}

/// A page, which begins at record `first`, with the classes that are picked for it, and how many
/// of them differ from before. Where none does it is the page itself, shared.
pub(crate) fn page_after<T: Chooser>(
    alloc: Global,
    page: &Arc<Page>,
    survey: &Survey,
    first: u32,
    chooser: &T,
) -> Result<(Arc<Page>, u64), OutOfMemory>
    requires within { first + length (arc_value page.now) ≤ record_count survey.now }
    requires few { first + length (arc_value page.now) < 2 ^ 32 }
    ensures after { IfOk result (λ made.
        IsAfter survey.now first (T.picks chooser.now) (arc_value page.now) (arc_value made.0)) }
    ensures count { IfOk result (λ made.
        made.1 ≡ meaning.changed (arc_value page.now) (arc_value made.0)) }
{
    let Some(start) = first_change(page.as_slice(), survey, first, chooser) else {
        return Ok((Arc::try_clone(page)?, 0));
    };
    let mut list = Vec::from_slice(alloc, page.as_slice())?;
    let count = reclassify(&mut list, survey, first, chooser, start);
    Ok((Arc::new(alloc, Page { list })?, count))
}

/// The place of the first class for which another one is picked, among those of the records from
/// record `first` on.
fn first_change<T: Chooser>(
    classes: &[u8],
    survey: &Survey,
    first: u32,
    chooser: &T,
) -> Option<usize>
    requires within { first + length classes.now ≤ record_count survey.now }
    requires few { first + length classes.now < 2 ^ 32 }
    ensures none { IfNone result
        (IsSame survey.now first (T.picks chooser.now) (length classes.now) classes.now) }
    ensures some { IfSome result (λ at. at < length classes.now) }
    ensures before { IfSome result
        (λ at. IsSame survey.now first (T.picks chooser.now) at classes.now) }
{
    for i in 0..classes.len() {
        let class = classes[i];
        if chooser.choose(xyz(survey.point_bytes(first + i as u32)), class) != class {
            return Some(i);
        }
    }
    None
}

/// Gives the records from record `first` on the classes that are picked for them, of which those
/// before place `start` stay, and answers how many differ from before.
fn reclassify<T: Chooser>(
    list: &mut [u8],
    survey: &Survey,
    first: u32,
    chooser: &T,
    start: usize,
) -> u64
    requires within { first + length list.old ≤ record_count survey.now }
    requires few { first + length list.old < 2 ^ 32 }
    requires start { start ≤ length list.old }
    requires before { IsSame survey.now first (T.picks chooser.now) start list.old }
    ensures after { IsAfter survey.now first (T.picks chooser.now) list.old list.new }
    ensures count { result ≡ meaning.changed list.old list.new }
{
    let mut count = 0;
    for i in start..list.len() {
        let class = list[i];
        let after = chooser.choose(xyz(survey.point_bytes(first + i as u32)), class);
        list[i] = after;
        count += u64::from(after != class);
    }
    count
}
