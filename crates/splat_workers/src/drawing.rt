ghost use Rattle.std.specs.Prelude.{◌≡◌, ◌+◌, ◌-◌, ◌<◌, ◌≤◌, [], IfErr, IfOk, false, length, true};
ghost use Rattle.std.specs.Thread.{IsSync};
ghost use Rattle.splat_workers.specs.Drawing.{IsFrameFor, SamePairs, claimed_pairs};
ghost use Rattle.splat_workers.specs.Working.{AreNumbered, AreReady, HasDrawn, HaveDrawn, IsReady};

use crate::plan::Plan;
use crate::worker::{Worker, work};
use min_frame::{Frame, Seat};
use std::alloc::Global;
use std::thread::{Threads, join_mut};
use view_base::{Listing, OutOfMemory};
use view_ends::Beside;

/// Draws a plan on a frame with so many workers, 1 to 64, who run side by side where threads can be
/// started, and answers the root with the account of all of them. Worker 0 has the root, the others
/// a seat each that is split off from it. Each claims pieces until none is left, and `beside` is
/// told of each claim that gave one, with the piece's number. A refusal is want of memory for the list of seats, whose room is
/// made before the first split, and hands the root back as it was.
pub fn draw_words<R: Threads + Sync, B: Beside>(
    alloc: Global,
    rt: &R,
    plan: &Plan,
    frame: &Frame,
    root: Seat,
    workers: u32,
    beside: &B,
) -> Result<Seat, (OutOfMemory, Seat)>
    requires workers { (1 ≤ workers) × (workers ≤ 64) }
    requires fits { IsFrameFor plan.now frame.now }
    requires root { root ≡ record { frame = frame.now.name; plots = []; claims = []; ends = workers; root = true; out = 0 } }
    ensures root { IfOk result (λ seat. (seat.frame ≡ frame.now.name) × (seat.root ≡ true)) }
    ensures out { IfOk result (λ seat. seat.out ≡ 0) }
    ensures ends { IfOk result (λ seat. seat.ends ≡ 0) }
    ensures plots { IfOk result (λ seat. SamePairs seat.plots (claimed_pairs plan.now seat.claims)) }
    ensures refused { IfErr result (λ refusal. refusal.1 ≡ root) }
{
    let mut others: Listing<Worker> = Listing::new(alloc);
    if others.reserve(workers as usize).is_err() {
        return Err((OutOfMemory, root));
    }
    let mut first = Worker {
        number: 0,
        seat: root,
    };
    split_off(frame, &mut first.seat, workers, &mut others);
    let mut others = others.into_vec();
    run(rt, plan, frame, beside, &mut first, &mut others);
    Ok(joined(plan, frame, first.seat, others))
}

/// Splits a seat off the root for each worker but the first, and numbers them from 1.
fn split_off(frame: &Frame, root: &mut Seat, workers: u32, others: &mut Listing<Worker>)
    requires workers { 1 ≤ workers }
    requires root { root.old ≡ record { frame = frame.now.name; plots = []; claims = []; ends = workers; root = true; out = 0 } }
    requires none { others.old.items ≡ [] }
    requires room { workers ≤ others.old.spare }
    ensures root { root.new ≡ record root.old { ends = 1; out = workers - 1 } }
    ensures ready { AreReady frame.now.name others.new.items }
    ensures numbers { AreNumbered others.new.items }
    ensures size { length others.new.items + 1 ≡ workers }
{
    for number in 1..workers {
        let seat = frame.split(root, 1);
        others.push_within(Worker { number, seat });
    }
}

/// Runs the first worker beside the others.
fn run<R: Threads + Sync, B: Beside>(
    rt: &R,
    plan: &Plan,
    frame: &Frame,
    beside: &B,
    first: &mut Worker,
    others: &mut [Worker],
)
    requires fits { IsFrameFor plan.now frame.now }
    requires first { IsReady frame.now.name first.old.seat }
    requires others { AreReady frame.now.name others.old }
    ensures first { HasDrawn plan.now frame.now.name first.new.seat }
    ensures root { first.new.seat.root ≡ first.old.seat.root }
    ensures out { first.new.seat.out ≡ first.old.seat.out }
    ensures others { HaveDrawn plan.now frame.now.name others.new }
    ensures size { length others.new ≡ length others.old }
{
    if others.is_empty() {
        work(plan, frame, beside, first);
        return;
    }
    join_mut(
        rt,
        &mut ||
            requires { IsFrameFor plan.now frame.now × IsReady frame.now.name first.now.seat }
            ensures drawn { HasDrawn plan.entry.now frame.entry.now.name first.exit.now.seat }
            ensures root { first.exit.now.seat.root ≡ first.entry.now.seat.root }
            ensures out { first.exit.now.seat.out ≡ first.entry.now.seat.out }
        { work(plan, frame, beside, first) },
        &mut ||
            requires { IsSync R.row × IsSync B.row × IsFrameFor plan.now frame.now × AreReady frame.now.name others.now }
            ensures drawn { HaveDrawn plan.entry.now frame.entry.now.name others.exit.now }
            ensures size { length others.exit.now ≡ length others.entry.now }
        { run_each(rt, plan, frame, beside, others) },
    );
}

/// Runs workers side by side, by halves.
fn run_each<R: Threads + Sync, B: Beside>(
    rt: &R,
    plan: &Plan,
    frame: &Frame,
    beside: &B,
    workers: &mut [Worker],
)
    requires fits { IsFrameFor plan.now frame.now }
    requires ready { AreReady frame.now.name workers.old }
    ensures drawn { HaveDrawn plan.now frame.now.name workers.new }
    ensures size { length workers.new ≡ length workers.old }
{
    if workers.len() < 2 {
        work_alone(plan, frame, beside, workers);
        return;
    }
    let (front, back) = workers.split_at_mut(workers.len() / 2);
    join_mut(
        rt,
        &mut ||
            requires { IsSync R.row × IsSync B.row × IsFrameFor plan.now frame.now × AreReady frame.now.name front.now }
            ensures drawn { HaveDrawn plan.entry.now frame.entry.now.name front.exit.now }
            ensures size { length front.exit.now ≡ length front.entry.now }
        { run_each(rt, plan, frame, beside, front) },
        &mut ||
            requires { IsSync R.row × IsSync B.row × IsFrameFor plan.now frame.now × AreReady frame.now.name back.now }
            ensures drawn { HaveDrawn plan.entry.now frame.entry.now.name back.exit.now }
            ensures size { length back.exit.now ≡ length back.entry.now }
        { run_each(rt, plan, frame, beside, back) },
    );
}

/// Runs the one worker of a list, if it has one.
fn work_alone<B: Beside>(plan: &Plan, frame: &Frame, beside: &B, workers: &mut [Worker])
    requires fits { IsFrameFor plan.now frame.now }
    requires few { length workers.old < 2 }
    requires ready { AreReady frame.now.name workers.old }
    ensures drawn { HaveDrawn plan.now frame.now.name workers.new }
    ensures size { length workers.new ≡ length workers.old }
{
    if let Some(worker) = workers.first_mut() {
        work(plan, frame, beside, worker);
    }
}

/// Joins the others' seats into the root.
fn joined(plan: &Plan, frame: &Frame, mut root: Seat, mut others: Vec<Worker>) -> Seat
    requires root { HasDrawn plan.now frame.now.name root }
    requires is_root { root.root ≡ true }
    requires out { root.out ≡ length others.items }
    requires others { HaveDrawn plan.now frame.now.name others.items }
    ensures root { HasDrawn plan.now frame.now.name result }
    ensures is_root { result.root ≡ true }
    ensures out { result.out ≡ 0 }
{
    while let Some(worker) = others.pop() {
        frame.join(&mut root, worker.seat);
    }
    root
}
