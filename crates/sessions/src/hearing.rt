ghost use Rattle.std.specs.Prelude.{◌≡◌, [], List, ℕ, OnOk, OnErr, is_ok};
ghost use Rattle.std.specs.List.{position};
ghost use Rattle.sessions.specs.Session.{is_lf, items_of};
ghost use Rattle.sessions.specs.Talk.{IsReady, AnsweredAll, talk_of};
ghost use Rattle.sessions.specs.Hearing.{AnswersAll, GivesUp, GivesUpAll, Hears, HearsMore, IsPending, moment};
ghost use Rattle.sessions.specs.Giving.{Gave};
ghost use Rattle.sessions.specs.Worlds.{IsWorld, survey_of, world_format};

use crate::answering::{answer_line, answer_refusal};
use crate::end::Marks;
use crate::pending::Pending;
use crate::world::World;
use std::alloc::Global;
use std::sync::Wait;
use std::thread::Threads;
use version_store::Pass;
use view_ends::{Beside, EndFault, Sink};
use view_lines::Refusal;

/// Hears one more piece of the input, and answers each line that ends in it.
pub(crate) fn hear<R: Threads + Wait + Sync, O: Sink, B: Beside>(
    alloc: Global,
    rt: &R,
    world: &World,
    pass: &mut Pass,
    marks: &mut Marks,
    pending: &mut Pending,
    piece: &[u8],
    beside: &B,
    sink: &mut O,
) -> Result<(), EndFault>
    requires world { IsWorld world.now }
    requires ready { IsReady world.now.shared.name pass.old }
    requires heard { Hears (survey_of world.now) (moment pass.old marks.old pending.old (O.got sink.old)) }
    ensures heard { OnOk result (HearsMore (survey_of world.now) piece.now (moment pass.old marks.old pending.old (O.got sink.old))
        (moment pass.new marks.new pending.new (O.got sink.new))) }
    ensures gave_up { OnErr result (GivesUp (survey_of world.now) piece.now (moment pass.old marks.old pending.old (O.got sink.old))
        (moment pass.new marks.new pending.new (O.got sink.new))) }
    ensures ready { IsReady world.now.shared.name pass.new }
    ensures gave { Gave (O.faults sink.old) (O.faults sink.new) result }
{
    let mut rest = piece;
    while let Some(length) = first_lf(rest) {
        pending.add(&rest[..length]);
        answer_pending(alloc, rt, world, pass, marks, pending, beside, sink)?;
        rest = &rest[length + 1..];
    }
    pending.add(rest);
    Ok(())
}

/// The place of the first LF of a piece.
fn first_lf(piece: &[u8]) -> Option<usize>
    ensures { result ≡ position is_lf piece.now }
{
    piece.iter().position(|byte| *byte == b'\n')
}

/// Answers the line that was read, and begins the next one.
fn answer_pending<R: Threads + Wait + Sync, O: Sink, B: Beside>(
    alloc: Global,
    rt: &R,
    world: &World,
    pass: &mut Pass,
    marks: &mut Marks,
    pending: &mut Pending,
    beside: &B,
    sink: &mut O,
) -> Result<(), EndFault>
    requires world { IsWorld world.now }
    requires ready { IsReady world.now.shared.name pass.old }
    requires pending { (line : List ℕ) × IsPending pending.old line }
    ensures answered { (line : List ℕ) → IsPending pending.old line → AnsweredAll (survey_of world.now) (talk_of pass.old marks.old)
        (talk_of pass.new marks.new) (items_of (world_format world.now) line) (O.got sink.old) (O.got sink.new) (is_ok result) }
    ensures cleared { OnOk result (IsPending pending.new []) }
    ensures ready { IsReady world.now.shared.name pass.new }
    ensures gave { Gave (O.faults sink.old) (O.faults sink.new) result }
{
    if pending.long {
        answer_refusal(alloc, marks, &Refusal::Line, sink)?;
    } else {
        answer_line(
            alloc,
            rt,
            world,
            pass,
            marks,
            pending.bytes.as_slice(),
            beside,
            sink,
        )?;
    }
    pending.clear();
    Ok(())
}

/// Answers the last line of an input that has ended, where there is one.
pub(crate) fn hear_end<R: Threads + Wait + Sync, O: Sink, B: Beside>(
    alloc: Global,
    rt: &R,
    world: &World,
    pass: &mut Pass,
    marks: &mut Marks,
    pending: &mut Pending,
    beside: &B,
    sink: &mut O,
) -> Result<(), EndFault>
    requires world { IsWorld world.now }
    requires ready { IsReady world.now.shared.name pass.old }
    requires heard { Hears (survey_of world.now) (moment pass.old marks.old pending.old (O.got sink.old)) }
    ensures heard { OnOk result (AnswersAll (survey_of world.now) (moment pass.old marks.old pending.old (O.got sink.old))
        (moment pass.new marks.new pending.new (O.got sink.new))) }
    ensures gave_up { OnErr result (GivesUpAll (survey_of world.now) (moment pass.old marks.old pending.old (O.got sink.old))
        (moment pass.new marks.new pending.new (O.got sink.new))) }
    ensures ready { IsReady world.now.shared.name pass.new }
    ensures gave { Gave (O.faults sink.old) (O.faults sink.new) result }
{
    if pending.long || pending.bytes.len() > 0 {
        answer_pending(alloc, rt, world, pass, marks, pending, beside, sink)?;
    }
    Ok(())
}
