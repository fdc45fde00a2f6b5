ghost use Rattle.std.specs.Prelude.{◌≡◌, IfErr, IfOk};
ghost use Rattle.sessions.specs.Listening as listening;
ghost use Rattle.view_ends.specs.Desk.{IsKnown};
ghost use Rattle.view_meaning.specs.Layout.{IsLaid};
ghost use Rattle.view_commands.specs.Steps.{IsUnwritten};
ghost use Rattle.view_commands.specs.Texts.{IsReadWhole, KeepsText, NoSurvey, OnlyTook, OnlyWrote, Writes};

use crate::places::SURVEY;
use crate::status::{Status, status_at};
use las_survey::{LoadFault, Survey, load};
use sessions::Reason;
use std::alloc::Global;
use view_ends::{Desk, EndFault, give_all};

/// The survey in a file. The input is shut before the answer.
pub(crate) fn read_survey<D: Desk>(
    alloc: Global,
    desk: &mut D,
    name: &str,
) -> Result<Survey, Status>
    ensures laid { IfOk result IsLaid }
    ensures read { IfOk result (λ b. IsReadWhole D.tells (D.says desk.old) (D.says desk.new) name.now b) }
    ensures took { IfOk result (λ b. OnlyTook (D.says desk.old) (D.says desk.new) name.now) }
    ensures refused { IfErr result (λ status. NoSurvey D.tells (D.says desk.old) (D.says desk.new) name.now status) }
{
    let mut input = match desk.open_in(name) {
        Ok(input) => input,
        Err(EndFault::Failed) => return Err(Status::OpenFault { at: SURVEY }),
        Err(EndFault::Memory) => return Err(Status::Memory),
    };
    let loaded = load(alloc, &mut input);
    desk.shut(name, input);
    match loaded {
        Ok(survey) => Ok(survey),
        Err(fault) => match fault {
            LoadFault::ReadFault => Err(Status::ReadFault { at: SURVEY }),
            LoadFault::TooLong => Err(Status::TooLong),
            LoadFault::Survey(fault) => Err(Status::Survey(fault)),
            LoadFault::Memory => Err(Status::Memory),
        },
    }
}

/// Writes a whole text into the file of the name that stands at a place of the command line.
pub(crate) fn write_text<D: Desk>(desk: &mut D, at: u32, out: &str, text: &[u8]) -> Status
    ensures written { Writes D.tells (D.says desk.old) (D.says desk.new) at out.now text.now result }
    ensures only { OnlyWrote (D.says desk.old) (D.says desk.new) out.now }
{
    match desk.open_out(out) {
        Ok(output) => status_at(at, at, keep_text(desk, out, output, text)),
        Err(EndFault::Failed) => Status::OpenFault { at },
        Err(EndFault::Memory) => Status::Memory,
    }
}

/// Gives a whole text to an output that got nothing so far, and keeps it, whatever came of the
/// giving. Where one of the two failed, this is `WriteFault`, also where the other met want of
/// memory.
pub(crate) fn keep_text<D: Desk>(desk: &mut D, name: &str, mut out: D::Out, text: &[u8]) -> Reason
    requires known { IsKnown (D.says desk.old) name.now }
    requires fresh { IsUnwritten D.tells (D.Out.got out) (D.Out.faults out) }
    ensures kept { KeepsText D.tells (D.says desk.old) (D.says desk.new) name.now text.now result }
    ensures only { OnlyWrote (D.says desk.old) (D.says desk.new) name.now }
{
    let given = give_all(&mut out, text);
    let kept = desk.keep(name, out);
    match given {
        Ok(()) => reason_of(kept),
        Err(EndFault::Failed) => Reason::WriteFault,
        Err(EndFault::Memory) => match kept {
            Ok(()) => Reason::Memory,
            Err(fault) => reason_of(Err(fault)),
        },
    }
}

/// What came of an output.
pub(crate) fn reason_of(outcome: Result<(), EndFault>) -> Reason
    ensures { result ≡ listening.reason_of outcome }
{
    match outcome {
        Ok(()) => Reason::Finished,
        Err(EndFault::Failed) => Reason::WriteFault,
        Err(EndFault::Memory) => Reason::Memory,
    }
}
