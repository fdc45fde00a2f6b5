ghost use Rattle.std.specs.Prelude.{◌≡◌, ◌≤◌, ℕ, List, Ok, Err, is_ok, true};
ghost use Rattle.turn_gate.specs.Meaning.{Passed};
ghost use Rattle.version_store.specs.declared.history.Entry.{Entry};
ghost use Rattle.view_lines.specs.declared.command.Command.TheVariants as command;
ghost use Rattle.view_meaning.specs.Classes.{top_class};
ghost use Rattle.view_meaning.specs.Picture.{can_colour};
ghost use Rattle.sessions.specs.Giving.{Gave};
ghost use Rattle.sessions.specs.Session.{Item};
ghost use Rattle.sessions.specs.Talk.{IsReady, Answered, Replied, Talk, talk_of};
ghost use Rattle.sessions.specs.Worlds.{IsWorld, survey_of, world_format};

use crate::end::Marks;
use crate::heads::{HEAD, append_head, append_refusal};
use crate::marking::last_mark;
use crate::replies::{append_count, append_picture};
use crate::world::World;
use class_bits::Filter;
use edit_ops::Edit;
use std::alloc::Global;
use std::sync::Wait;
use std::thread::Threads;
use version_store::Pass;
use view_base::{Bytes, OutOfMemory};
use view_ends::{Beside, EndFault, Sink, give_all};
use view_lines::Refusal;
use view_text::ViewSpec;

/// The reply to a view: the picture of the version that it pins, which is drawn whole and given back
/// before this answers.
pub(crate) fn view_reply<R: Threads + Wait + Sync, B: Beside>(
    alloc: Global,
    rt: &R,
    world: &World,
    pass: &mut Pass,
    marks: &mut Marks,
    view: &ViewSpec,
    beside: &B,
) -> Result<Bytes, OutOfMemory>
    requires world { IsWorld world.now }
    requires ready { IsReady world.now.shared.name pass.old }
    requires can_colour { can_colour (world_format world.now) view.now.colouring ≡ true }
    ensures ready { IsReady world.now.shared.name pass.new }
    ensures replied { Replied (survey_of world.now) (talk_of pass.old marks.old) (talk_of pass.new marks.new) (Ok (command.View view.now)) result }
{
    marks.reserve(1)?;
    let mut out = Bytes::new(alloc);
    let pin = world.shared.pin(rt, pass)?;
    let version = pin.version();
    let classes = pin.classes();
    let drawn = append_picture(
        alloc,
        rt,
        &world.scene,
        classes,
        version,
        view,
        beside,
        &mut out,
    );
    marks.push_within(version);
    world.shared.unpin(rt, pass, pin);
    drawn?;
    Ok(out)
}

/// Publishes an edit, and makes the reply to it: how many classes it changed.
pub(crate) fn edit_reply<R: Threads + Wait + Sync>(
    alloc: Global,
    rt: &R,
    world: &World,
    pass: &mut Pass,
    marks: &mut Marks,
    edit: &Edit,
) -> Result<Bytes, OutOfMemory>
    requires world { IsWorld world.now }
    requires ready { IsReady world.now.shared.name pass.old }
    requires room { edit.now.to ≤ top_class (world_format world.now) }
    ensures ready { IsReady world.now.shared.name pass.new }
    ensures replied { Replied (survey_of world.now) (talk_of pass.old marks.old) (talk_of pass.new marks.new) (Ok (command.Edit edit.now)) result }
{
    marks.reserve(1)?;
    let mut out = Bytes::new(alloc);
    out.reserve(HEAD)?;
    let (version, changed) = world.shared.publish(rt, pass, edit)?;
    marks.push_within(version);
    append_head(&mut out, b"EDITED", version, changed);
    Ok(out)
}

/// The reply to a count: how many records pass in the version that it pins, which is given back
/// before this answers.
pub(crate) fn count_reply<R: Threads + Wait + Sync>(
    alloc: Global,
    rt: &R,
    world: &World,
    pass: &mut Pass,
    marks: &mut Marks,
    filter: &Filter,
) -> Result<Bytes, OutOfMemory>
    requires world { IsWorld world.now }
    requires ready { IsReady world.now.shared.name pass.old }
    ensures ready { IsReady world.now.shared.name pass.new }
    ensures replied { Replied (survey_of world.now) (talk_of pass.old marks.old) (talk_of pass.new marks.new) (Ok (command.Count filter.now)) result }
{
    marks.reserve(1)?;
    let mut out = Bytes::new(alloc);
    out.reserve(HEAD)?;
    let pin = world.shared.pin(rt, pass)?;
    let version = pin.version();
    append_count(rt, &world.scene, pin.classes(), version, filter, &mut out);
    marks.push_within(version);
    world.shared.unpin(rt, pass, pin);
    Ok(out)
}

/// The reply to a line that asks for nothing: its code. It makes no entry.
pub(crate) fn refusal_reply(
    alloc: Global,
    marks: &mut Marks,
    refusal: &Refusal,
) -> Result<Bytes, OutOfMemory>
    ensures replied { (b : List ℕ) → (pass : Passed Entry) → Replied b (talk_of pass marks.old) (talk_of pass marks.new) (Err refusal.now) result }
{
    marks.reserve(1)?;
    let mut out = Bytes::new(alloc);
    out.reserve(HEAD)?;
    append_refusal(&mut out, refusal.code());
    let last = last_mark(marks.as_slice());
    marks.push_within(last);
    Ok(out)
}

/// Gives a reply that was made, so that no pin is held while an output is waited for.
pub(crate) fn give_reply<O: Sink>(
    reply: Result<Bytes, OutOfMemory>,
    sink: &mut O,
) -> Result<(), EndFault>
    ensures answered { (b : List ℕ) → (old : Talk) → (new : Talk) → (item : Item) → Replied b old new item reply
        → Answered b old new item (O.got sink.old) (O.got sink.new) (is_ok result) }
    ensures gave { Gave (O.faults sink.old) (O.faults sink.new) result }
{
    match reply {
        Ok(reply) => give_all(sink, reply.as_slice()),
        Err(OutOfMemory) => Err(EndFault::Memory),
    }
}
