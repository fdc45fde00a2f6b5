//! Counts over several pages of classes, by one worker and by several.
ghost use Rattle.std.specs.Prelude.{◌≡◌, length};
ghost use Rattle.view_meaning.specs.Survey.{record_count};

use class_bits::{ClassSet, Filter};
use class_pages::{Classes, base};
use las_survey::{Survey, load};
use sessions::count_passing;
use std::alloc::Global;
use std::process::Abort;
use std::test::Fail;
use std::thread::Threads;
use view_base::{Bytes, OutOfMemory};
use view_ends::StillSource;

/// Appends the header of a file of LAS 1.4 with 20000 records of format 0.
fn append_header(bytes: &mut Bytes) -> Result<(), OutOfMemory> {
    bytes.append(b"LASF")?;
    bytes.append(&[0; 20])?;
    bytes.append(&[1, 4])?;
    bytes.append(&[0; 68])?;
    bytes.append(&375u16.to_le_bytes())?;
    bytes.append(&375u32.to_le_bytes())?;
    bytes.append(&[0; 5])?;
    bytes.append(&20u16.to_le_bytes())?;
    bytes.append(&[0; 140])?;
    bytes.append(&20000u64.to_le_bytes())?;
    bytes.append(&[0; 120])
}

/// Appends so many records with this class byte.
fn append_records(bytes: &mut Bytes, count: u32, class: u8) -> Result<(), OutOfMemory> {
    for _ in 0..count {
        bytes.append(&[
            0, 0, 0, 0, 0, 0, 0, 0, 5, 0, 0, 0, 0, 0, 0, class, 0, 0, 0, 0,
        ])?;
    }
    Ok(())
}

/// 5000 records of class 2, then 7000 of class 6, then 8000 of class 6 that are withheld.
fn survey(alloc: Global) -> Result<Survey, Fail> {
    let mut bytes = Bytes::new(alloc);
    append_header(&mut bytes)?;
    append_records(&mut bytes, 5000, 2)?;
    append_records(&mut bytes, 7000, 6)?;
    append_records(&mut bytes, 8000, 128 + 6)?;
    Ok(load(alloc, &mut StillSource::new(bytes))?)
}

/// The set of one class.
fn only(class: u8) -> ClassSet {
    let mut classes = ClassSet::empty();
    classes.add(class);
    classes
}

/// One worker and four of them count as many.
fn counts_are<R: Threads + Abort + Sync>(
    rt: &R,
    survey: &Survey,
    classes: &Classes,
    filter: &Filter,
    wanted: u32,
)
    requires { length classes.now ≡ record_count survey.now }
{
    assert_eq!(rt; count_passing(rt, 1, survey, classes, filter), wanted);
    assert_eq!(rt; count_passing(rt, 4, survey, classes, filter), wanted);
}

/// Each filter counts so many.
fn filters_count<R: Threads + Abort + Sync>(rt: &R, survey: &Survey, classes: &Classes)
    requires { length classes.now ≡ record_count survey.now }
{
    for (classes_shown, hide_withheld, wanted) in [
        (only(2), false, 5000),
        (only(2), true, 5000),
        (only(6), false, 15000),
        (only(6), true, 7000),
        (only(7), false, 0),
        (ClassSet::all(), false, 20000),
        (ClassSet::all(), true, 12000),
    ] {
        let filter = Filter {
            classes: classes_shown,
            hide_withheld,
        };
        counts_are(rt, survey, classes, &filter, wanted);
    }
}

#[test]
fn the_records_of_each_page_are_counted(rt: HostRuntime) -> Result<(), Fail> {
    let survey = survey(rt.alloc())?;
    let classes = base(rt.alloc(), &survey)?;
    filters_count(&rt, &survey, &classes);
    Ok(())
}
