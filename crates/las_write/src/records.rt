ghost use Rattle.std.specs.Prelude.{◌≡◌, ℕ, ◌+◌, ◌*◌, ◌≤◌, ◌<◌, List, length, take, drop, slice_index};
ghost use Rattle.las_header.specs.Header.{IsHeaderOf};
ghost use Rattle.class_pages.specs.Fitting.{EachFits};
ghost use Rattle.las_write.specs.Points.{HasPoints, saved_records};
ghost use Rattle.view_meaning.specs.Survey.{format_of, record_at, record_count, record_length};

use class_bits::with_class;
use class_pages::{Classes, PAGE};
use las_points::class_place;
use las_survey::{Header, Survey};

/// The classes of records from record `first` on that stand on one page, `most` at the most.
pub fn run_from(classes: &Classes, first: u32, most: usize) -> &[u8]
    requires inside { first < length classes.now }
    requires some { 1 ≤ most }
    ensures run { result.now ≡ take (length result.now) (drop first classes.now) }
    ensures some { 1 ≤ length result.now }
    ensures most { length result.now ≤ most }
    ensures within { first + length result.now ≤ length classes.now }
{
    let page = classes.page(first / PAGE as u32).as_slice();
    let at = first as usize % PAGE;
    let count = most.min(page.len() - at);
    &page[at..at + count]
}

/// Copies as many records as there are classes, from record `first` on, and sets the class of each.
pub(crate) fn copy_records(piece: &mut [u8], survey: &Survey, classes: &[u8], first: u32)
    requires there { HasPoints survey.now }
    requires within { first + length classes.now ≤ record_count survey.now }
    requires size { length piece.old ≡ length classes.now * record_length survey.now }
    requires room { EachFits (format_of survey.now) classes.now }
    ensures { (all : List ℕ) → classes.now ≡ take (length classes.now) (drop first all)
        → piece.new ≡ saved_records survey.now all first (length classes.now) }
{
    let bytes = survey.bytes();
    let header = survey.header();
    let at = header.points_at as usize + first as usize * usize::from(header.length);
    piece.copy_from_slice(&bytes[at..at + piece.len()]);
    set_classes(piece, survey, classes, first);
}

/// Sets the class of each of as many records as there are classes, from record `first` on.
fn set_classes(piece: &mut [u8], survey: &Survey, classes: &[u8], first: u32)
    requires there { HasPoints survey.now }
    requires within { first + length classes.now ≤ record_count survey.now }
    requires size { length piece.old ≡ length classes.now * record_length survey.now }
    requires read { piece.old ≡ take (length classes.now * record_length survey.now)
        (drop (record_at survey.now first) survey.now) }
    requires room { EachFits (format_of survey.now) classes.now }
    ensures { (all : List ℕ) → classes.now ≡ take (length classes.now) (drop first all)
        → piece.new ≡ saved_records survey.now all first (length classes.now) }
{
    let header = survey.header();
    let size = usize::from(header.length);
    let place = class_place(header.format);
    for k in 0..classes.len() {
        let byte = &mut piece[k * size + place];
        *byte = with_class(header.format, *byte, classes[k]);
    }
}
