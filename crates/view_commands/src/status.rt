ghost use Rattle.std.specs.Prelude.{◌≡◌, ◌+◌, ◌*◌, ◌^◌, ◌<◌, ◌≤◌, length, map};
ghost use Rattle.view_commands.specs.declared.places.TheConstants.{INPUT, JOURNAL};
ghost use Rattle.view_commands.specs.Run as serve;
ghost use Rattle.view_commands.specs.Status.{code_of};

use crate::places::{INPUT, JOURNAL};
use int_camera::CameraLimit;
use las_survey::SurveyFault;
use sessions::{Ends, Reason, SessionEnd};
use std::fmt;
use view_base::Listing;

/// How a command ended. `at` is the place of a word of the command line, from 0.
#[derive(Clone, Copy, Debug, PartialEq, Eq)]
pub enum Status {
    /// All was done.
    Done,
    /// The first word of the command line that is refused, or the number of words where more are
    /// needed.
    Words { at: u32 },
    /// The first number of the camera that is out of its range.
    Limit(CameraLimit),
    /// The view shows red, green and blue, which records of the survey's point data record format
    /// don't have.
    NoColour { format: u8 },
    /// A file was not opened.
    OpenFault { at: u32 },
    /// A file was not read to its end.
    ReadFault { at: u32 },
    /// The survey has more than 2^30 bytes.
    TooLong,
    /// The first fault of the survey's layout.
    Survey(SurveyFault),
    /// A file was not written whole, or not kept.
    WriteFault { at: u32 },
    /// The input of a session has more than 2^20 bytes.
    SessionLimit { at: u32 },
    /// Want of memory.
    Memory,
}

/// The exit status of the program for a status.
pub fn code(status: &Status) -> u8
    ensures { result ≡ code_of status.now }
{
    match status {
        Status::Done => 0,
        Status::Words { .. } => 2,
        Status::Limit(_) => 3,
        Status::NoColour { .. } => 4,
        Status::OpenFault { .. } => 5,
        Status::ReadFault { .. } => 6,
        Status::TooLong => 7,
        Status::Survey(_) => 8,
        Status::WriteFault { .. } => 9,
        Status::SessionLimit { .. } => 10,
        Status::Memory => 11,
    }
}

/// The status of a run: that of the first session with a fault, else of the first output that was
/// not kept, else of the journal.
pub(crate) fn status_of(ends: &Ends, kept: &Listing<Reason>, journal: Reason) -> Status
    requires ends { length ends.now.items ≤ 16 }
    requires kept { length kept.now.items ≤ 16 }
    ensures { result ≡ serve.first_fault INPUT (map (λ end. end.reason) ends.now.items)
        (serve.first_fault INPUT kept.now.items (serve.status_at JOURNAL JOURNAL journal)) }
{
    let journal = status_at(JOURNAL, JOURNAL, journal);
    let kept = first_fault(INPUT, kept.as_slice(), journal);
    first_unfinished(INPUT, ends.as_slice(), kept)
}

/// The first fault of the sessions with these ends, as `first_fault` says it.
fn first_unfinished(at: u32, ends: &[SessionEnd], last: Status) -> Status
    requires { at + 2 * length ends.now < 2 ^ 32 }
    ensures { result ≡ serve.first_fault at (map (λ end. end.reason) ends.now) last }
{
    match ends {
        [] => last,
        [end, others @ ..] => match status_at(at, at + 1, end.reason) {
            Status::Done => first_unfinished(at + 2, others, last),
            status => status,
        },
    }
}

/// The status of the first of these reasons that is one of a fault, where the names of the first of
/// them stand at the place `at` and the next one, those of the second at the two places after them,
/// and so on; where there is none, the last.
pub(crate) fn first_fault(at: u32, reasons: &[Reason], last: Status) -> Status
    requires { at + 2 * length reasons.now < 2 ^ 32 }
    ensures { result ≡ serve.first_fault at reasons.now last }
{
    match reasons {
        [] => last,
        [reason, others @ ..] => match status_at(at, at + 1, *reason) {
            Status::Done => first_fault(at + 2, others, last),
            status => status,
        },
    }
}

/// The status of a reason, where its input and its output are the words at these places.
pub(crate) fn status_at(input: u32, output: u32, reason: Reason) -> Status
    ensures { result ≡ serve.status_at input output reason }
{
    match reason {
        Reason::Finished => Status::Done,
        Reason::ReadFault => Status::ReadFault { at: input },
        Reason::SessionLimit => Status::SessionLimit { at: input },
        Reason::WriteFault => Status::WriteFault { at: output },
        Reason::Memory => Status::Memory,
    }
}

impl fmt::Display for Status {
    ghost use Rattle.std.specs.Prelude.{Some};
    ghost use Rattle.view_commands.specs.Status.{text_of};

    ghost output = { λ status. Some (text_of status) };

    fn fmt<W: fmt::Write>(&self, f: &mut fmt::Formatter<W>) -> fmt::Result {
        match self {
            Status::Done => Ok(()),
            Status::Words { at } => write!(f, "word {at} is not expected"),
            Status::Limit(limit) => write!(
                f,
                "camera number {} is out of range: {}",
                limit.place, limit.value
            ),
            Status::NoColour { format } => write!(f, "format {format} has no colour"),
            Status::OpenFault { at } => write!(f, "cannot open word {at}"),
            Status::ReadFault { at } => write!(f, "cannot read word {at}"),
            Status::TooLong => f.write_str("survey is too long"),
            Status::Survey(fault) => write!(f, "survey: {fault}"),
            Status::WriteFault { at } => write!(f, "cannot write word {at}"),
            Status::SessionLimit { at } => write!(f, "session input of word {at} is too long"),
            Status::Memory => f.write_str("out of memory"),
        }
    }
}
