ghost use Rattle.std.specs.Prelude.{◌<◌, ◌≤◌, length};

use crate::surveys::{spread, survey};
use grid_blocks::{Blocks, build};
use las_survey::Survey;
use std::alloc::Global;
use std::process::Abort;
use std::thread::Threads;

/// Two lists of records have the same ones at the same places.
fn same_records(rt: &impl Abort, these: &Blocks, others: &Blocks, k: u32)
    requires these { k < length these.now.blocks }
    requires others { k < length others.now.blocks }
{
    let one = these.records(k).expect(rt, "copies");
    let other = others.records(k).expect(rt, "copies");
    assert_eq!(rt; one.numbers, other.numbers);
    assert_eq!(rt; one.points, other.points);
    assert_eq!(rt; one.withheld, other.withheld);
}

/// Blocks are the same, block by block and record by record.
fn same_blocks(rt: &impl Abort, these: &Blocks, others: &Blocks) {
    assert_eq!(rt; these.count(), others.count());
    for k in 0..these.count() {
        assert_eq!(rt; these.block(k), others.block(k));
        same_records(rt, these, others, k);
    }
}

/// The blocks by cells that so many workers make.
fn made_by<R: Abort + Threads + Sync>(
    rt: &R,
    alloc: Global,
    survey: &Survey,
    workers: u32,
) -> Blocks
    requires workers { (1 ≤ workers) × (workers ≤ 64) }
{
    build(alloc, rt, workers, survey).expect(rt, "memory for blocks")
}

/// Two, three and 64 workers make the blocks by cells that one makes.
fn same_by_all<R: Abort + Threads + Sync>(rt: &R, alloc: Global, survey: &Survey) {
    let alone = made_by(rt, alloc, survey, 1);
    for workers in [2, 3, 64] {
        same_blocks(rt, &made_by(rt, alloc, survey, workers), &alone);
    }
}

#[test]
fn blocks_are_the_same_by_each_number_of_workers(rt: HostRuntime) {
    same_by_all(&rt, rt.alloc(), &spread(&rt, rt.alloc()));
}

#[test]
fn records_at_one_point_are_the_same_by_each_number_of_workers(rt: HostRuntime) {
    same_by_all(&rt, rt.alloc(), &survey(&rt, rt.alloc(), 5000, &[]));
}
