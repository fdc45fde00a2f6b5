//! Colours of records and of words, by hand.
ghost use Rattle.std.specs.Prelude.{◌≡◌, ◌≤◌, [], All, length, true};
ghost use Rattle.resolve_colour.specs.Names.{NamesOne};
ghost use Rattle.view_base.specs.declared.colour.Colouring.TheVariants as by;
ghost use Rattle.view_meaning.specs.Picture.{can_colour};
ghost use Rattle.view_meaning.specs.Survey.{record_count, format_of};

use crate::surveys::{append_header, loaded, survey_of};
use class_pages::{Classes, base};
use las_survey::Survey;
use resolve_colour::{can_colour, colours, record_colour};
use std::alloc::Global;
use std::process::Abort;
use std::test::Fail;
use std::thread::Threads;
use view_base::{Bytes, Colouring, OutOfMemory, Words};

/// X, Y and Z of (0, 0, 5), and an intensity of 640.
const FRONT: [u8; 14] = [0, 0, 0, 0, 0, 0, 0, 0, 5, 0, 0, 0, 0x80, 2];

/// Red 256, green 255 and blue 65535.
const RGB: [u8; 6] = [0, 1, 0xFF, 0, 0xFF, 0xFF];

/// Class 2, which is withheld, in format 2.
const SECOND: [u8; 6] = [0, 0x82, 0, 0, 0, 0];

/// Appends one record behind its header: by its bytes between intensity and RGB, and those after
/// RGB.
fn append_one(
    bytes: &mut Bytes,
    format: u8,
    length: u8,
    middle: &[u8],
    last: &[u8],
) -> Result<(), OutOfMemory> {
    append_header(bytes, format, length, 1)?;
    let parts: [&[u8]; 4] = [&FRONT, middle, &RGB, last];
    for part in parts {
        bytes.append(part)?;
    }
    Ok(())
}

/// The survey of that record.
fn survey(
    alloc: Global,
    format: u8,
    length: u8,
    middle: &[u8],
    last: &[u8],
) -> Result<Survey, Fail> {
    let mut bytes = Bytes::new(alloc);
    append_one(&mut bytes, format, length, middle, last)?;
    loaded(alloc, bytes)
}

/// The survey of that record in format 2.
pub(crate) fn one_record(alloc: Global) -> Result<Survey, Fail> {
    survey(alloc, 2, 26, &SECOND, &[])
}

/// The bytes of a pixel without a record and of one with record 0 at depth 5.
fn two_pixels<R: Threads + Sync>(
    rt: &R,
    alloc: Global,
    survey: &Survey,
    classes: &Classes,
    colouring: Colouring,
) -> Result<Bytes, OutOfMemory>
    requires can_colour { can_colour (format_of survey.now) colouring ≡ true }
    requires records { record_count survey.now ≡ 1 }
    requires classes { length classes.now ≡ 1 }
{
    let mut words = Words::new(alloc);
    words.append(&[u64::MAX, 5 << 32])?;
    let mut out = Bytes::new(alloc);
    out.reserve(6)?;
    colours(rt, 1, &words, survey, classes, colouring, &mut out);
    Ok(out)
}

/// Record 0 has to show by a colouring, as itself and as a pixel beside a black one.
fn shows<R: Abort + Threads + Sync>(
    rt: &R,
    alloc: Global,
    survey: &Survey,
    classes: &Classes,
    colouring: Colouring,
    wanted: [u8; 3],
) -> Result<(), OutOfMemory> {
    assert!(rt; survey.records() == 1 && classes.len() == 1);
    assert!(rt; can_colour(survey.header().format, colouring));
    assert_eq!(rt; record_colour(survey, classes, colouring, 0), wanted);
    let [red, green, blue] = wanted;
    let pixels = two_pixels(rt, alloc, survey, classes, colouring)?;
    assert_eq!(rt; pixels.as_slice(), [0, 0, 0, red, green, blue].as_slice());
    Ok(())
}

/// The record has to show by each colouring.
fn shows_by_each<R: Abort + Threads + Sync>(
    rt: &R,
    alloc: Global,
    survey: &Survey,
) -> Result<(), OutOfMemory> {
    let classes = base(alloc, survey)?;
    for (colouring, wanted) in [
        (Colouring::Class, [0xC6, 0x86, 0xFA]),
        (Colouring::Rgb16, [1, 0, 0xFF]),
        (Colouring::Rgb8, [0xFF, 0xFF, 0xFF]),
        (Colouring::Intensity, [2, 2, 2]),
    ] {
        shows(rt, alloc, survey, &classes, colouring, wanted)?;
    }
    Ok(())
}

#[test]
fn a_record_shows_by_each_colouring(rt: HostRuntime) -> Result<(), Fail> {
    let survey = one_record(rt.alloc())?;
    shows_by_each(&rt, rt.alloc(), &survey)?;
    Ok(())
}

#[test]
fn format_5_has_rgb_after_the_time(rt: HostRuntime) -> Result<(), Fail> {
    let middle = [0, 2, 0, 0, 0, 0, 9, 9, 9, 9, 9, 9, 9, 9];
    let survey = survey(rt.alloc(), 5, 63, &middle, &[9; 29])?;
    shows_by_each(&rt, rt.alloc(), &survey)?;
    Ok(())
}

#[test]
fn format_8_has_rgb_after_the_time(rt: HostRuntime) -> Result<(), Fail> {
    let middle = [0, 4, 2, 0, 0, 0, 0, 0, 9, 9, 9, 9, 9, 9, 9, 9];
    let survey = survey(rt.alloc(), 8, 38, &middle, &[9; 2])?;
    shows_by_each(&rt, rt.alloc(), &survey)?;
    Ok(())
}

/// Each of two records has to show its own class: 2, and 6 beside the withheld bit.
fn shows_both<R: Abort>(rt: &R, survey: &Survey, classes: &Classes) {
    assert!(rt; survey.records() == 2 && classes.len() == 2);
    assert!(rt; can_colour(survey.header().format, Colouring::Class));
    let first = record_colour(survey, classes, Colouring::Class, 0);
    let second = record_colour(survey, classes, Colouring::Class, 1);
    assert!(rt; first == [0xC6, 0x86, 0xFA] && second == [0xD2, 0x92, 0x6E]);
}

#[test]
fn a_record_shows_by_its_own_number(rt: HostRuntime) -> Result<(), Fail> {
    let survey = survey_of(rt.alloc(), &[([0, 0, 7], 2), ([0, 0, 3], 0x86)])?;
    let classes = base(rt.alloc(), &survey)?;
    shows_both(&rt, &survey, &classes);
    Ok(())
}

/// A row of 4500 pixels without a record and 4501 with record 0.
pub(crate) fn fill_row(words: &mut Words)
    requires none { words.old.items ≡ [] }
    requires room { 9001 ≤ words.old.spare }
    ensures names { All (NamesOne 1) words.new.items }
    ensures size { length words.new.items ≡ 9001 }
{
    words.extend_by(4500, u64::MAX);
    words.extend_by(4501, 5 << 32);
}

/// The class colours of words by so many workers.
fn colours_by<R: Threads + Sync>(
    rt: &R,
    alloc: Global,
    workers: u32,
    words: &Words,
    survey: &Survey,
    classes: &Classes,
) -> Result<Bytes, OutOfMemory>
    requires workers { (1 ≤ workers) × (workers ≤ 64) }
    requires can_colour { can_colour (format_of survey.now) by.Class ≡ true }
    requires records { record_count survey.now ≡ 1 }
    requires classes { length classes.now ≡ 1 }
    requires names { All (NamesOne 1) words.now.items }
    requires size { length words.now.items ≡ 9001 }
{
    let mut out = Bytes::new(alloc);
    out.reserve(27003)?;
    colours(
        rt,
        workers,
        words,
        survey,
        classes,
        Colouring::Class,
        &mut out,
    );
    Ok(out)
}

/// The row's colours have to be the same by each number of workers.
fn same_by_all<R: Abort + Threads + Sync>(
    rt: &R,
    alloc: Global,
    survey: &Survey,
    classes: &Classes,
) -> Result<(), OutOfMemory> {
    assert!(rt; survey.records() == 1 && classes.len() == 1);
    assert!(rt; can_colour(survey.header().format, Colouring::Class));
    let mut words = Words::new(alloc);
    words.reserve(9001)?;
    fill_row(&mut words);
    let alone = colours_by(rt, alloc, 1, &words, survey, classes)?;
    for workers in [2, 3, 64] {
        let shared = colours_by(rt, alloc, workers, &words, survey, classes)?;
        assert!(rt; shared.len() == 27003 && shared.as_slice() == alone.as_slice());
    }
    Ok(())
}

#[test]
fn a_row_is_the_same_by_each_number_of_workers(rt: HostRuntime) -> Result<(), Fail> {
    let survey = one_record(rt.alloc())?;
    let classes = base(rt.alloc(), &survey)?;
    same_by_all(&rt, rt.alloc(), &survey, &classes)?;
    Ok(())
}
