use crate::waiting::passes;
use std::alloc::Global;
use std::sync::atomic::{AtomicU64, Ordering};
use std::test::Fail;
use test_desks::{
    CLASS_2, File, Host, ONE, Record, SERVE_TWO, Shelf, VIEW, VIEWED, command_beside, fill, holds,
    plain, same,
};
use view_commands::Status;
use view_ends::{Beside, MemDesk};

/// Whoever holds the first call until a second one has come, and counts the calls and the holds that
/// ran out.
#[derive(Drop)]
struct Meeting {
    calls: AtomicU64,
    alone: AtomicU64,
}

impl Beside for Meeting {
    fn arrive(&self, _worker: u32, _number: u32) {
        let earlier = self.calls.fetch_add(1, Ordering::SeqCst);
        if earlier == 0 && !passes(&self.calls, 1) {
            self.alone.fetch_add(1, Ordering::SeqCst);
        }
    }
}

/// Serves two sessions of one view each, which have to be drawn at the same time.
fn meets(rt: &impl Host, alloc: Global, survey: &[u8]) -> Result<(), Fail> {
    let mut desk = MemDesk::empty(alloc);
    fill(
        alloc,
        &mut desk,
        &[("a.las", survey), ("i1", VIEW), ("i2", VIEW)],
    )?;
    let meeting = Meeting {
        calls: AtomicU64::new(0),
        alone: AtomicU64::new(0),
    };
    let status = command_beside(rt, alloc, &mut desk, SERVE_TWO, &meeting)?.status;
    same(&status, &Status::Done, SERVE_TWO)?;
    let told = [&meeting.calls, &meeting.alone].map(|count| count.load(Ordering::SeqCst));
    same(&told, &[2, 0], "calls, and holds that ran out")?;
    holds(&desk, &[("o1", VIEWED), ("o2", VIEWED)], SERVE_TWO)
}

#[test]
fn two_sessions_are_drawn_at_the_same_time(rt: HostRuntime) -> Result<(), Fail> {
    meets(&rt, rt.alloc(), plain(rt.alloc(), &ONE)?.as_slice())
}

/// Whoever holds each of two workers in its first call until the other has come, and counts the
/// calls of each, how often each of three blocks was told, and the holds that ran out.
#[derive(Drop)]
struct Roll {
    calls: [AtomicU64; 2],
    blocks: [AtomicU64; 3],
    alone: AtomicU64,
}

impl Beside for Roll {
    fn arrive(&self, worker: u32, number: u32) {
        if let Some(block) = self.blocks.get(number as usize) {
            block.fetch_add(1, Ordering::SeqCst);
        }
        let [one, two] = &self.calls;
        let (own, other) = if worker == 0 { (one, two) } else { (two, one) };
        if own.fetch_add(1, Ordering::SeqCst) == 0 && !passes(other, 0) {
            self.alone.fetch_add(1, Ordering::SeqCst);
        }
    }
}

/// A picture of one pixel by two workers.
const BY_TWO: &str = "draw a.las a.ppm 2 ortho 1 1 0 0 0 1 0 0 0 1 0 0 0 1 1 1 0 10 class all show";

/// Each of the three blocks has to have been told once, and no hold to have run out.
fn all_told(roll: &Roll) -> Result<(), Fail> {
    let [one, two, three] = &roll.blocks;
    let told = [one, two, three, &roll.alone].map(|count| count.load(Ordering::SeqCst));
    same(&told, &[1, 1, 1, 0], "blocks, and holds that ran out")
}

/// Runs a line by two workers over a survey of three blocks, which has to leave this output.
fn meets_by_two(
    rt: &impl Host,
    alloc: Global,
    survey: &[u8],
    line: &str,
    out: File,
) -> Result<(), Fail> {
    let mut desk = MemDesk::empty(alloc);
    fill(alloc, &mut desk, &[("a.las", survey), ("i", VIEW)])?;
    let roll = Roll {
        calls: [AtomicU64::new(0), AtomicU64::new(0)],
        blocks: [AtomicU64::new(0), AtomicU64::new(0), AtomicU64::new(0)],
        alone: AtomicU64::new(0),
    };
    let status = command_beside(rt, alloc, &mut desk, line, &roll)?.status;
    same(&status, &Status::Done, line)?;
    all_told(&roll)?;
    holds(&desk, &[out], line)
}

/// A picture by two workers, and a view of the one session of a `serve` by two.
fn each_meets_by_two(rt: &impl Host, alloc: Global, survey: &[u8]) -> Result<(), Fail> {
    meets_by_two(rt, alloc, survey, BY_TWO, ("a.ppm", CLASS_2))?;
    meets_by_two(rt, alloc, survey, "serve a.las 2 j i o", ("o", VIEWED))
}

#[test]
fn two_workers_draw_at_the_same_time(rt: HostRuntime) -> Result<(), Fail> {
    // Blocks have at most 1024 records.
    let records: [Record; 2049] = [(0, 0, 5, 2); 2049];
    each_meets_by_two(&rt, rt.alloc(), plain(rt.alloc(), &records)?.as_slice())
}
