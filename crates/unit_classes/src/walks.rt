//! Edits by blocks. Neighbours in space are far apart in number: record i is at (7919 i modulo the
//! number of records, 0, 0).
ghost use Rattle.grid_blocks.specs.Blocks.{IsBlocks};

use crate::made::{RECORDS, are, are_all, drawn_edit, edit_of, edit_plain, owners, survey};
use class_pages::{Classes, base};
use edit_ops::Edit;
use grid_blocks::{Blocks, build, build_by_number};
use las_survey::Survey;
use std::alloc::Global;
use std::process::Abort;
use std::test::Fail;
use std::thread::Threads;
use version_store::{edited_by, is_quicker_by_pages};

const STEP: u32 = 7919;

/// The classes after an edit by blocks, of which so many change.
fn edited(
    rt: &impl Abort,
    alloc: Global,
    survey: &Survey,
    blocks: &Blocks,
    classes: &Classes,
    edit: &Edit,
    wanted: u64,
) -> Result<Classes, Fail>
    requires { IsBlocks survey.now blocks.now }
{
    assert!(rt; edit.to <= 31);
    assert_eq!(rt; classes.len() as u64, u64::from(survey.records()));
    let (made, changed) = edited_by(alloc, survey, blocks, classes, edit)?;
    assert_eq!(rt; changed, wanted);
    Ok(made)
}

/// Makes a hundred edits of the newest classes and of the plain list. Those that reach far go by
/// pages, and the others by blocks.
fn edit_often(
    rt: &impl Abort,
    alloc: Global,
    survey: &Survey,
    blocks: &Blocks,
    newest: &mut Classes,
    plain: &mut [u8],
) -> Result<(), Fail>
    requires { IsBlocks survey.now blocks.now }
{
    let mut seed = 11;
    for number in 0..100 {
        let mut edit = drawn_edit(&mut seed)?;
        if number % 4 == 0 {
            edit.area.max.x = edit.area.max.x.saturating_add(60000);
        }
        let wanted = edit_plain(plain, STEP, &edit);
        *newest = edited(rt, alloc, survey, blocks, newest, &edit, wanted)?;
    }
    Ok(())
}

/// Whether a version from many edits after these classes has those of a plain list.
fn edits_are_plain<R: Abort + Threads + Sync>(
    rt: &R,
    alloc: Global,
    survey: &Survey,
    read: &Classes,
) -> Result<bool, Fail> {
    let blocks = build(alloc, rt, 2, survey)?;
    let none = edit_of(b"edit 0 0 0 0 0 0 9 6")?;
    let mut plain = vec![in alloc; 2u8; 100000]?;
    let mut newest = edited(rt, alloc, survey, &blocks, read, &none, 0)?;
    edit_often(rt, alloc, survey, &blocks, &mut newest, &mut plain)?;
    Ok(are(&newest, &plain))
}

/// The version from before the edits has its own classes afterwards.
#[test]
fn edits_by_blocks_are_edits_of_a_plain_list(rt: HostRuntime) -> Result<(), Fail> {
    let survey = survey(rt.alloc(), RECORDS, STEP)?;
    let read = base(rt.alloc(), &survey)?;
    let plain = edits_are_plain(&rt, rt.alloc(), &survey, &read)?;
    assert_eq!(rt; (plain, are_all(&read, 2)), (true, true));
    Ok(())
}

/// Whether an edit of all records gives each of them its class, and leaves the version before as it
/// was.
fn all_change(
    rt: &impl Abort,
    alloc: Global,
    survey: &Survey,
    blocks: &Blocks,
) -> Result<bool, Fail>
    requires { IsBlocks survey.now blocks.now }
{
    let read = base(alloc, survey)?;
    let all = edit_of(b"edit 0 0 0 9000 0 0 2 6")?;
    let wanted = u64::from(survey.records());
    let made = edited(rt, alloc, survey, blocks, &read, &all, wanted)?;
    Ok(are_all(&read, 2) & are_all(&made, 6))
}

/// Whether all of so many records change, by blocks of either kind.
fn all_change_twice<R: Abort + Threads + Sync>(
    rt: &R,
    alloc: Global,
    records: u32,
) -> Result<bool, Fail> {
    let survey = survey(alloc, records, STEP)?;
    let by_cells = all_change(rt, alloc, &survey, &build(alloc, rt, 2, &survey)?)?;
    let by_number = all_change(rt, alloc, &survey, &build_by_number(alloc, &survey)?)?;
    Ok(by_cells & by_number)
}

#[test]
fn an_edit_by_blocks_reaches_every_page(rt: HostRuntime) -> Result<(), Fail> {
    for records in [0, 1, 4095, 4096, 8193] {
        let all = all_change_twice(&rt, rt.alloc(), records)?;
        assert!(rt; all);
    }
    Ok(())
}

/// How many lists have each of the two pages of 8192 records as read, after an edit of record 0
/// alone, and after one that gives every record the class that it has.
fn shared_by_two<R: Abort + Threads + Sync>(
    rt: &R,
    alloc: Global,
    survey: &Survey,
) -> Result<[[usize; 2]; 3], Fail> {
    let blocks = build(alloc, rt, 2, survey)?;
    let read = base(alloc, survey)?;
    let first = edit_of(b"edit 0 0 0 0 0 0 2 6")?;
    let none = edit_of(b"edit 0 0 0 9000 0 0 2 2")?;
    let one = edited(rt, alloc, survey, &blocks, &read, &first, 1)?;
    let two = edited(rt, alloc, survey, &blocks, &read, &none, 0)?;
    Ok([owners(rt, &read), owners(rt, &one), owners(rt, &two)])
}

#[test]
fn an_edit_by_blocks_shares_the_pages_that_it_leaves(rt: HostRuntime) -> Result<(), Fail> {
    let survey = survey(rt.alloc(), 8192, STEP)?;
    let got = shared_by_two(&rt, rt.alloc(), &survey)?;
    assert_eq!(rt; got, [[2, 3], [1, 3], [2, 3]]);
    Ok(())
}

/// How many lists have each page of 8192 records as read, and after a small edit that gives a record
/// the class that it has, by blocks.
fn left_by_one<R: Abort + Threads + Sync>(
    rt: &R,
    alloc: Global,
    survey: &Survey,
) -> Result<[[usize; 2]; 2], Fail> {
    let blocks = build(alloc, rt, 2, survey)?;
    let read = base(alloc, survey)?;
    let none = edit_of(b"edit 0 0 0 0 0 0 2 2")?;
    assert!(rt; !is_quicker_by_pages(survey.records(), &blocks, &none));
    let one = edited(rt, alloc, survey, &blocks, &read, &none, 0)?;
    Ok([owners(rt, &read), owners(rt, &one)])
}

#[test]
fn a_small_edit_that_changes_nothing_copies_no_page(rt: HostRuntime) -> Result<(), Fail> {
    let survey = survey(rt.alloc(), 8192, STEP)?;
    let got = left_by_one(&rt, rt.alloc(), &survey)?;
    assert_eq!(rt; got, [[2, 2], [2, 2]]);
    Ok(())
}

/// Whether an edit is made page by page over blocks by cells, and over blocks by number, of 8192
/// records of which record i is at (4033 i modulo 8192, 0, 0): the record at x has number 65 x modulo
/// 8192. By cells of 128 records 64 blocks, in which each number but a few is on another cache line
/// than the one before.
fn are_by_pages<R: Abort + Threads + Sync>(
    rt: &R,
    alloc: Global,
    line: &[u8],
) -> Result<[bool; 2], Fail> {
    let survey = survey(alloc, 8192, 4033)?;
    let edit = edit_of(line)?;
    let cells = build(alloc, rt, 2, &survey)?;
    let numbered = build_by_number(alloc, &survey)?;
    Ok([
        is_quicker_by_pages(8192, &cells, &edit),
        is_quicker_by_pages(8192, &numbered, &edit),
    ])
}

/// All records cost 16 of 24 by pages where they follow one another, and 16 + 6 * 12 at least where
/// they don't. The first record alone is in one block of the 64, which the sample has twice.
#[test]
fn a_large_scattered_edit_goes_by_pages(rt: HostRuntime) -> Result<(), Fail> {
    let large = are_by_pages(&rt, rt.alloc(), b"edit 0 0 0 9000 0 0 2 6")?;
    let small = are_by_pages(&rt, rt.alloc(), b"edit 0 0 0 0 0 0 2 6")?;
    assert_eq!(rt; (large, small), ([true, false], [false, false]));
    Ok(())
}
