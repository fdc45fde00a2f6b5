use crate::commands::command;
use crate::desks::{Shelf, fill, holds};
use crate::endings::command_ended;
use crate::runtime::Host;
use crate::surveys::{Record, plain};
use sessions::Reason;
use std::alloc::Global;
use std::test::Fail;
use view_commands::{Ended, Status};
use view_ends::StillDesk;

/// The command of one session.
pub const SERVE: &str = "serve a.las 1 j i o";

/// The command of two sessions.
pub const SERVE_TWO: &str = "serve a.las 1 j i1 o1 i2 o2";

/// Serves a script over a survey, which has to give these replies and this journal, and to leave the
/// survey and the script.
pub fn serves(
    rt: &impl Host,
    alloc: Global,
    survey: &[u8],
    script: &[u8],
    replies: &[u8],
    journal: &[u8],
) -> Result<Ended, Fail> {
    let mut desk = StillDesk::empty(alloc);
    fill(alloc, &mut desk, &[("a.las", survey), ("i", script)])?;
    let ended = command(rt, alloc, &mut desk, SERVE)?;
    left(&desk, [survey, script, replies, journal])?;
    Ok(ended)
}

/// The desk has to hold this survey, script, replies and journal.
fn left(desk: &StillDesk, files: [&[u8]; 4]) -> Result<(), Fail> {
    let [survey, script, replies, journal] = files;
    holds(desk, &[("o", replies), ("j", journal)], SERVE)?;
    holds(desk, &[("a.las", survey), ("i", script)], SERVE)
}

/// Serves a script over a plain survey of these records, which has to end well with these replies
/// and this journal.
pub fn replies(
    rt: &impl Host,
    alloc: Global,
    records: &[Record],
    script: &[u8],
    replies: &[u8],
    journal: &[u8],
) -> Result<(), Fail> {
    let survey = plain(alloc, records)?;
    let ended = serves(rt, alloc, survey.as_slice(), script, replies, journal)?;
    command_ended(&ended, Status::Done, Reason::Finished)
}

/// The pieces of a text, one after another.
pub fn joined(alloc: Global, pieces: &[&[u8]]) -> Result<Vec<u8>, Fail> {
    let mut text = Vec::new(alloc);
    for piece in pieces {
        text.extend_from_slice(piece)?;
    }
    Ok(text)
}

/// These replies' heads, and then the survey of one point at (0, 0, 5) with this class byte.
pub fn then_file(alloc: Global, heads: &[u8], class: u8) -> Result<Vec<u8>, Fail> {
    let survey = plain(alloc, &[(0, 0, 5, class)])?;
    joined(alloc, &[heads, survey.as_slice()])
}
