//! Pieces of one block and of several.
use crate::drawing::{are, drawn_by, view_of};
use crate::surveys::{Place, survey_of};
use class_bits::ClassSet;
use las_survey::Survey;
use splat_workers::step_for;
use std::alloc::Global;
use std::process::Abort;
use std::test::Fail;
use std::thread::Threads;
use view_base::OutOfMemory;
use view_ends::NoBeside;
use view_text::ViewSpec;

/// A row of six pixels, along Z, a unit a pixel and a unit of depth.
const ROW: [i128; 18] = [6, 1, 0, 0, 0, 1, 0, 0, 0, 1, 0, 0, 0, 1, 1, 1, 0, 10];

/// Five records in cells of their own, of which the pixel of the fourth shows the second.
const FIVE: [Place; 5] = [
    ([-3, 0, 5], 2),
    ([0, 0, 4], 2),
    ([-1, 0, 3], 2),
    ([0, 0, 9], 2),
    ([2, 0, 1], 2),
];

/// What they show in the row.
const FIVE_WORDS: [u64; 6] = [
    5 << 32,
    u64::MAX,
    (3 << 32) + 2,
    (4 << 32) + 1,
    u64::MAX,
    (1 << 32) + 4,
];

/// Draws the five records by this many pieces of so many blocks, with 1 and 3 workers.
fn five_by<R: Abort + Threads + Sync>(
    rt: &R,
    alloc: Global,
    survey: &Survey,
    view: &ViewSpec,
    cut: (u32, u32),
) -> Result<(), OutOfMemory> {
    for workers in [1, 3] {
        let words = drawn_by(rt, alloc, survey, view, cut, workers, &NoBeside)?;
        assert!(rt; are(&words, &FIVE_WORDS));
    }
    Ok(())
}

#[test]
fn pieces_of_several_blocks_show_what_single_blocks_show(rt: HostRuntime) -> Result<(), Fail> {
    let survey = survey_of(rt.alloc(), &FIVE)?;
    let view = view_of(&rt, ROW, ClassSet::all(), false);
    for cut in [(1, 5), (2, 3), (3, 2), (5, 1), (6, 1)] {
        five_by(&rt, rt.alloc(), &survey, &view, cut)?;
    }
    Ok(())
}

#[test]
fn a_piece_has_one_block_until_there_are_many(rt: HostRuntime) {
    let few = [step_for(0), step_for(16_383)];
    let many = [step_for(16_384), step_for(262_144), step_for(1 << 20)];
    assert!(rt; few == [1, 1] && many == [2, 32, 128]);
}
