ghost use Rattle.std.specs.Prelude.{◌≡◌, ◌++◌, [], ◌∷◌, IfOk, OnOk};
ghost use Rattle.version_store.specs.Histories.{journal, edit_in};
ghost use Rattle.view_ends.specs.Desk.{IsKnown};
ghost use Rattle.view_commands.specs.Run.{journal_text};
ghost use Rattle.view_commands.specs.Steps.{IsUnwritten};
ghost use Rattle.view_commands.specs.Texts.{KeepsText, OnlyWrote};

use crate::texts::keep_text;
use edit_ops::{Edit, edit_text};
use sessions::{Entry, Reason, What};
use std::alloc::Global;
use view_base::{Bytes, OutOfMemory};
use view_ends::Desk;

/// Writes the journal of a history to an output that got nothing so far, and keeps it, empty where
/// there is no memory for its text.
pub(crate) fn write_journal<D: Desk>(
    alloc: Global,
    desk: &mut D,
    name: &str,
    out: D::Out,
    history: &[Entry],
) -> Reason
    requires known { IsKnown (D.says desk.old) name.now }
    requires fresh { IsUnwritten D.tells (D.Out.got out) (D.Out.faults out) }
    ensures kept { KeepsText D.tells (D.says desk.old) (D.says desk.new) name.now (journal_text (journal history.now)) result }
    ensures only { OnlyWrote (D.says desk.old) (D.says desk.new) name.now }
{
    match journal_text(alloc, history) {
        Ok(text) => keep_text(desk, name, out, text.as_slice()),
        Err(OutOfMemory) => match keep_text(desk, name, out, &[]) {
            Reason::Finished => Reason::Memory,
            reason => reason,
        },
    }
}

/// The canonical line and LF of each edit that a history published, in order.
#[tactic(auto, unfolding(crate::specs::Run::journal_text, version_store::specs::Histories::journal))]
fn journal_text(alloc: Global, history: &[Entry]) -> Result<Bytes, OutOfMemory>
    ensures { IfOk result (λ text. text.items ≡ journal_text (journal history.now)) }
{
    let mut text = Bytes::new(alloc);
    for i in 0..history.len() {
        append_entry(&history[i], &mut text)?;
    }
    Ok(text)
}

/// Appends the canonical line and LF of the edit that an entry published, if it did.
#[tactic(auto, unfolding(crate::specs::Run::journal_text))]
fn append_entry(entry: &Entry, text: &mut Bytes) -> Result<(), OutOfMemory>
    ensures { OnOk result (text.new.items ≡ text.old.items ++ journal_text (edit_in entry.now.what)) }
{
    match &entry.what {
        What::Publish(edit) => append_line(edit, text),
        What::Pin => Ok(()),
        What::Unpin(_) => Ok(()),
    }
}

/// Appends the canonical line of an edit and LF.
fn append_line(edit: &Edit, text: &mut Bytes) -> Result<(), OutOfMemory>
    ensures { OnOk result (text.new.items ≡ text.old.items ++ journal_text (edit.now ∷ [])) }
{
    edit_text(edit, text)?;
    text.append(b"\n")
}
