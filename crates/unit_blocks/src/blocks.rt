use crate::surveys::survey;
use grid_blocks::{Blocks, build, build_by_number};
use las_survey::Survey;
use std::alloc::Global;
use std::process::Abort;
use std::thread::Threads;
use view_base::Point;

const LEAST: i32 = i32::MIN;

const MOST: i32 = i32::MAX;

/// Records at both ends of each coordinate, so that a cell has 2^26 units an edge. The cells of the
/// records along x, y and z are (63, 0, 0), (0, 63, 0), (0, 0, 63), (0, 0, 0), (32, 32, 32),
/// (0, 0, 0), the last unit of it, and (1, 0, 0), the first unit of it.
const ENDS: [[i32; 3]; 7] = [
    [MOST, LEAST, LEAST],
    [LEAST, MOST, LEAST],
    [LEAST, LEAST, MOST],
    [LEAST + 67108863, LEAST, LEAST],
    [0, 0, 0],
    [LEAST, LEAST, LEAST],
    [LEAST + 67108864, LEAST, LEAST],
];

/// Three cells of 2^12 units an edge, with the records 0, then 1, 2 and 3, and then 4.
pub const WIDE: [[i32; 3]; 5] = [
    [-100000, -100000, 5],
    [-10, -10, 5],
    [0, 0, 5],
    [10, 10, 5],
    [100000, 100000, 5],
];

/// Block `k` has this first place, count and first member.
fn block_is(rt: &impl Abort, blocks: &Blocks, k: u32, wanted: [u32; 3]) {
    assert!(rt; k < blocks.count());
    let block = blocks.block(k);
    let member = blocks.member(block.first);
    assert_eq!(rt; [block.first, block.count, member], wanted);
}

/// Blocks have these first places, counts and first members.
fn blocks_are(rt: &impl Abort, blocks: &Blocks, wanted: &[[u32; 3]]) {
    assert_eq!(rt; blocks.count() as usize, wanted.len());
    for k in 0..wanted.len() {
        block_is(rt, blocks, k as u32, wanted[k]);
    }
}

/// The blocks by cells of a survey.
fn cells<R: Abort + Threads + Sync>(rt: &R, alloc: Global, survey: &Survey) -> Blocks {
    build(alloc, rt, 1, survey).expect(rt, "memory for blocks")
}

/// The blocks by cells of a survey are these.
fn by_cells<R: Abort + Threads + Sync>(
    rt: &R,
    alloc: Global,
    survey: &Survey,
    wanted: &[[u32; 3]],
) {
    let blocks = cells(rt, alloc, survey);
    blocks_are(rt, &blocks, wanted);
}

/// The blocks by number of a survey are these.
fn by_number(rt: &impl Abort, alloc: Global, survey: &Survey, wanted: &[[u32; 3]]) {
    let blocks = build_by_number(alloc, survey).expect(rt, "memory for blocks");
    blocks_are(rt, &blocks, wanted);
}

#[test]
fn a_second_cell_begins_a_block(rt: HostRuntime) {
    let survey = survey(&rt, rt.alloc(), 1024, &[[5000, 0, 5]]);
    by_cells(&rt, rt.alloc(), &survey, &[[0, 1024, 0], [1024, 1, 1024]]);
    by_number(&rt, rt.alloc(), &survey, &[[0, 1024, 0], [1024, 1, 1024]]);
}

#[test]
fn a_cell_is_cut_into_blocks_of_1024(rt: HostRuntime) {
    let survey = survey(&rt, rt.alloc(), 2049, &[]);
    let wanted = [[0, 1024, 0], [1024, 1024, 1024], [2048, 1, 2048]];
    by_cells(&rt, rt.alloc(), &survey, &wanted);
    by_number(&rt, rt.alloc(), &survey, &wanted);
}

#[test]
fn no_records_have_no_blocks(rt: HostRuntime) {
    let survey = survey(&rt, rt.alloc(), 0, &[]);
    by_cells(&rt, rt.alloc(), &survey, &[]);
    by_number(&rt, rt.alloc(), &survey, &[]);
}

#[test]
fn cells_come_by_z_then_y_then_x(rt: HostRuntime) {
    let survey = survey(&rt, rt.alloc(), 0, &ENDS);
    let wanted = [
        [0, 2, 3],
        [2, 1, 6],
        [3, 1, 0],
        [4, 1, 1],
        [5, 1, 4],
        [6, 1, 2],
    ];
    by_cells(&rt, rt.alloc(), &survey, &wanted);
}

// The greatest extent is 900, so a cell has 2^4 units an edge: record 0 is in cell 56 along X, and
// record 1 in cell 0.
#[test]
fn a_later_record_stands_before_one_of_a_later_cell(rt: HostRuntime) {
    let survey = survey(&rt, rt.alloc(), 0, &[[900, 0, 5], [0, 0, 5]]);
    by_cells(&rt, rt.alloc(), &survey, &[[0, 1, 1], [1, 1, 0]]);
}

/// Block `k` has the records with these numbers.
fn members_are(rt: &impl Abort, blocks: &Blocks, k: u32, wanted: &[u32]) {
    assert!(rt; k < blocks.count());
    let records = blocks.records(k).expect(rt, "copies");
    assert_eq!(rt; records.numbers, wanted);
}

/// The five records lie in three cells, of which the middle one has three.
fn has_three_cells(rt: &impl Abort, blocks: &Blocks) {
    blocks_are(rt, blocks, &[[0, 1, 0], [1, 3, 1], [4, 1, 4]]);
    members_are(rt, blocks, 0, &[0]);
    members_are(rt, blocks, 1, &[1, 2, 3]);
    members_are(rt, blocks, 2, &[4]);
}

#[test]
fn records_of_one_cell_are_the_members_of_one_block(rt: HostRuntime) {
    let survey = survey(&rt, rt.alloc(), 0, &WIDE);
    has_three_cells(&rt, &cells(&rt, rt.alloc(), &survey));
}

/// Block 4 has the record at the origin, which is withheld.
fn has_the_origin(rt: &impl Abort, blocks: &Blocks) {
    assert!(rt; blocks.count() > 4);
    let records = blocks.records(4).expect(rt, "copies");
    assert_eq!(rt; records.numbers, [4].as_slice());
    assert_eq!(rt; records.points, [Point { x: 0, y: 0, z: 0 }].as_slice());
    assert_eq!(rt; records.withheld, [true].as_slice());
}

#[test]
fn the_records_of_a_block_lie_side_by_side(rt: HostRuntime) {
    let survey = survey(&rt, rt.alloc(), 0, &ENDS);
    has_the_origin(&rt, &cells(&rt, rt.alloc(), &survey));
}
