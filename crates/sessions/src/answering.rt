ghost use Rattle.std.specs.Prelude.{◌≡◌, ℕ, ◌≤◌, List, Ok, Err, is_ok, length};
ghost use Rattle.turn_gate.specs.Meaning.{Passed};
ghost use Rattle.version_store.specs.declared.history.Entry.{Entry};
ghost use Rattle.view_lines.specs.declared.command.Command.TheVariants as command;
ghost use Rattle.view_lines.specs.Command.{FitsFormat};
ghost use Rattle.sessions.specs.Session.{items_of, without_cr};
ghost use Rattle.sessions.specs.Talk.{IsReady, Answered, AnsweredAll, talk_of};
ghost use Rattle.sessions.specs.Giving.{Gave};
ghost use Rattle.sessions.specs.Worlds.{IsWorld, survey_of, world_format};

use crate::end::Marks;
use crate::heads::HEAD;
use crate::pending::LINE;
use crate::replies::give_file;
use crate::whole_replies::{count_reply, edit_reply, give_reply, refusal_reply, view_reply};
use crate::world::World;
use std::alloc::Global;
use std::sync::Wait;
use std::thread::Threads;
use version_store::Pass;
use view_base::{Bytes, next_word};
use view_ends::{Beside, EndFault, Sink};
use view_lines::{Command, Refusal, read_command};

/// Answers a line, its LF cut off. A line without words is answered by nothing.
pub(crate) fn answer_line<R: Threads + Wait + Sync, O: Sink, B: Beside>(
    alloc: Global,
    rt: &R,
    world: &World,
    pass: &mut Pass,
    marks: &mut Marks,
    line: &[u8],
    beside: &B,
    sink: &mut O,
) -> Result<(), EndFault>
    requires world { IsWorld world.now }
    requires ready { IsReady world.now.shared.name pass.old }
    requires few { length line.now ≤ LINE }
    ensures ready { IsReady world.now.shared.name pass.new }
    ensures answered { AnsweredAll (survey_of world.now) (talk_of pass.old marks.old) (talk_of pass.new marks.new) (items_of (world_format world.now) line.now)
        (O.got sink.old) (O.got sink.new) (is_ok result) }
    ensures gave { Gave (O.faults sink.old) (O.faults sink.new) result }
{
    let line = without_cr(line);
    if next_word(line, 0).is_none() {
        return Ok(());
    }
    match read_command(line, world.scene.survey.header().format) {
        Ok(command) => answer_command(alloc, rt, world, pass, marks, &command, beside, sink),
        Err(refusal) => answer_refusal(alloc, marks, &refusal, sink),
    }
}

/// A line without one CR at its end.
fn without_cr(line: &[u8]) -> &[u8]
    ensures { result.now ≡ without_cr line.now }
{
    match line {
        [front @ .., b'\r'] => front,
        _ => line,
    }
}

/// Answers a command.
fn answer_command<R: Threads + Wait + Sync, O: Sink, B: Beside>(
    alloc: Global,
    rt: &R,
    world: &World,
    pass: &mut Pass,
    marks: &mut Marks,
    command: &Command,
    beside: &B,
    sink: &mut O,
) -> Result<(), EndFault>
    requires world { IsWorld world.now }
    requires ready { IsReady world.now.shared.name pass.old }
    requires fits { FitsFormat (world_format world.now) command.now }
    ensures ready { IsReady world.now.shared.name pass.new }
    ensures answered { Answered (survey_of world.now) (talk_of pass.old marks.old) (talk_of pass.new marks.new) (Ok command.now)
        (O.got sink.old) (O.got sink.new) (is_ok result) }
    ensures gave { Gave (O.faults sink.old) (O.faults sink.new) result }
{
    match command {
        Command::View(view) => {
            let reply = view_reply(alloc, rt, world, pass, marks, view, beside);
            give_reply(reply, sink)
        }
        Command::Edit(edit) => {
            let reply = edit_reply(alloc, rt, world, pass, marks, edit);
            give_reply(reply, sink)
        }
        Command::Count(filter) => {
            let reply = count_reply(alloc, rt, world, pass, marks, filter);
            give_reply(reply, sink)
        }
        Command::Save => answer_save(alloc, rt, world, pass, marks, sink),
    }
}

/// Answers a save by the whole file with the classes of the version that it pins, which is given
/// back whether or not the writing failed.
fn answer_save<R: Threads + Wait + Sync, O: Sink>(
    alloc: Global,
    rt: &R,
    world: &World,
    pass: &mut Pass,
    marks: &mut Marks,
    sink: &mut O,
) -> Result<(), EndFault>
    requires world { IsWorld world.now }
    requires ready { IsReady world.now.shared.name pass.old }
    ensures ready { IsReady world.now.shared.name pass.new }
    ensures answered { Answered (survey_of world.now) (talk_of pass.old marks.old) (talk_of pass.new marks.new) (Ok command.Save)
        (O.got sink.old) (O.got sink.new) (is_ok result) }
    ensures gave { Gave (O.faults sink.old) (O.faults sink.new) result }
{
    marks.reserve(1)?;
    let mut out = Bytes::new(alloc);
    out.reserve(HEAD)?;
    let pin = world.shared.pin(rt, pass)?;
    let version = pin.version();
    let given = give_file(&world.scene.survey, pin.classes(), version, &mut out, sink);
    marks.push_within(version);
    world.shared.unpin(rt, pass, pin);
    given
}

/// Answers a line that asks for nothing by its code. It makes no entry.
pub(crate) fn answer_refusal<O: Sink>(
    alloc: Global,
    marks: &mut Marks,
    refusal: &Refusal,
    sink: &mut O,
) -> Result<(), EndFault>
    ensures answered { (b : List ℕ) → (pass : Passed Entry) → Answered b (talk_of pass marks.old) (talk_of pass marks.new) (Err refusal.now)
        (O.got sink.old) (O.got sink.new) (is_ok result) }
    ensures gave { Gave (O.faults sink.old) (O.faults sink.new) result }
{
    let reply = refusal_reply(alloc, marks, refusal);
    give_reply(reply, sink)
}
