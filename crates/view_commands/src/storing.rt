ghost use Rattle.std.specs.Prelude.{◌≡◌, ◌≤◌, true, Ok, OnOk};
ghost use Rattle.view_base.specs.Text.{words};
ghost use Rattle.view_lines.specs.Command.{FitsFormat, command_of};
ghost use Rattle.view_lines.specs.declared.command.Command.TheVariants as command;
ghost use Rattle.view_meaning.specs.Classes.{top_class};
ghost use Rattle.view_meaning.specs.Picture.{can_colour};
ghost use Rattle.view_meaning.specs.Survey.{format_of};
ghost use Rattle.view_commands.specs.Steps.{Answers, CanAnswer, IsStage};
ghost use Rattle.view_commands.specs.declared.script.TheConstants.{FORMAT};

use crate::script::FORMAT;
use class_bits::Filter;
use edit_ops::Edit;
use sessions::{HEAD, Scene, append_count, append_head, append_picture};
use std::alloc::Global;
use std::thread::Threads;
use version_store::Store;
use view_base::{Bytes, OutOfMemory};
use view_ends::Beside;
use view_lines::{Command, read_command};
use view_text::ViewSpec;

/// The number of the one caller of the store of a trial.
const CALLER: u32 = 1;

/// Appends the reply to a line that is a view, an edit or a count, as a session that alone edits
/// would.
pub(crate) fn answer_line<R: Threads + Sync, B: Beside>(
    alloc: Global,
    rt: &R,
    scene: &Scene,
    store: &mut Store,
    line: &[u8],
    beside: &B,
    out: &mut Bytes,
) -> Result<(), OutOfMemory>
    requires stage { IsStage scene.now store.old }
    requires line { CanAnswer (command_of (words line.now) FORMAT) }
    ensures { OnOk result (Answers store.old store.new (command_of (words line.now) FORMAT) out.old.items out.new.items) }
{
    match read_command(line, FORMAT) {
        Ok(command) => answer_command(alloc, rt, scene, store, &command, beside, out),
        Err(_) => unreachable!(),
    }
}

/// Appends the reply to a command of such a line.
fn answer_command<R: Threads + Sync, B: Beside>(
    alloc: Global,
    rt: &R,
    scene: &Scene,
    store: &mut Store,
    command: &Command,
    beside: &B,
    out: &mut Bytes,
) -> Result<(), OutOfMemory>
    requires stage { IsStage scene.now store.old }
    requires command { CanAnswer (Ok command.now) }
    requires fits { FitsFormat FORMAT command.now }
    ensures { OnOk result (Answers store.old store.new (Ok command.now) out.old.items out.new.items) }
{
    match command {
        Command::View(view) => answer_view(alloc, rt, scene, store, view, beside, out),
        Command::Edit(edit) => answer_edit(store, edit, out),
        Command::Count(filter) => answer_count(rt, scene, store, filter, out),
        Command::Save => unreachable!(),
    }
}

/// Appends the reply to a view, by the picture of the newest version.
fn answer_view<R: Threads + Sync, B: Beside>(
    alloc: Global,
    rt: &R,
    scene: &Scene,
    store: &mut Store,
    view: &ViewSpec,
    beside: &B,
    out: &mut Bytes,
) -> Result<(), OutOfMemory>
    requires stage { IsStage scene.now store.old }
    requires can_colour { can_colour FORMAT view.now.colouring ≡ true }
    ensures { OnOk result (Answers store.old store.new (Ok (command.View view.now)) out.old.items out.new.items) }
{
    let pin = store.pin(CALLER)?;
    let version = pin.version();
    let classes = pin.classes();
    let drawn = append_picture(alloc, rt, scene, classes, version, view, beside, out);
    store.unpin(CALLER, pin);
    drawn
}

/// Publishes an edit, and appends the reply to it: how many classes it changed.
fn answer_edit(store: &mut Store, edit: &Edit, out: &mut Bytes) -> Result<(), OutOfMemory>
    requires room { edit.now.to ≤ top_class (format_of store.old.bytes) }
    ensures { OnOk result (Answers store.old store.new (Ok (command.Edit edit.now)) out.old.items out.new.items) }
{
    out.reserve(HEAD)?;
    let (version, changed) = store.publish(CALLER, edit)?;
    append_head(out, b"EDITED", version, changed);
    Ok(())
}

/// Appends the reply to a count: how many records pass in the newest version.
fn answer_count<R: Threads + Sync>(
    rt: &R,
    scene: &Scene,
    store: &mut Store,
    filter: &Filter,
    out: &mut Bytes,
) -> Result<(), OutOfMemory>
    requires stage { IsStage scene.now store.old }
    ensures { OnOk result (Answers store.old store.new (Ok (command.Count filter.now)) out.old.items out.new.items) }
{
    out.reserve(HEAD)?;
    let pin = store.pin(CALLER)?;
    append_count(rt, scene, pin.classes(), pin.version(), filter, out);
    store.unpin(CALLER, pin);
    Ok(())
}
