use crate::comparing::same;
use sessions::{Ends, Reason, SessionEnd};
use std::test::Fail;
use version_store::{History, What};
use view_commands::{Ended, Status};

/// The command has to have ended with this status, and the journal for this reason.
pub fn command_ended(ended: &Ended, status: Status, journal: Reason) -> Result<(), Fail> {
    same(&ended.status, &status, "the command")?;
    same(&ended.told.journal, &journal, "the journal")
}

/// A command has to have ended so, and no session to have run.
pub fn refused(ended: &Ended, line: &str, status: Status) -> Result<(), Fail> {
    same(&ended.status, &status, line)?;
    let told = [ended.told.sessions.len(), ended.told.history.len()];
    same(&told, &[0, 0], line)
}

/// The one session has to have ended for this reason, with so many bytes taken and these marks.
pub fn session_ended(ended: &Ended, reason: Reason, taken: u64, marks: &[u64]) -> Result<(), Fail> {
    same(&ended.told.sessions.len(), &1, "sessions")?;
    end_is(&ended.told.sessions, 0, reason, taken, marks)
}

/// Session `k`, from 0, has to have ended for this reason, with so many bytes taken and these marks.
pub fn end_is(
    ends: &Ends,
    k: usize,
    reason: Reason,
    taken: u64,
    marks: &[u64],
) -> Result<(), Fail> {
    match ends.as_slice().get(k) {
        Some(end) => is_end(end, reason, taken, marks),
        None => Err(Fail::new("there is no such session")),
    }
}

/// A session has to have ended for this reason, with so many bytes taken and these marks.
fn is_end(end: &SessionEnd, reason: Reason, taken: u64, marks: &[u64]) -> Result<(), Fail> {
    same(&end.reason, &reason, "the session")?;
    same(&end.taken, &taken, "taken")?;
    same(&end.marks.as_slice(), &marks, "marks")
}

/// The command and its one session have to have ended well, with so many bytes taken, these marks and
/// these entries, in the letters of `entries_are`.
pub fn finished(ended: &Ended, taken: u64, marks: &[u64], letters: &[u8]) -> Result<(), Fail> {
    command_ended(ended, Status::Done, Reason::Finished)?;
    session_ended(ended, Reason::Finished, taken, marks)?;
    entries_are(&ended.told.history, letters)
}

/// The entries of a history have to be these, all by session 1: `E` an edit, `P` a pin, `U` the last
/// pin given back, and `?` any other.
pub fn entries_are(history: &History, letters: &[u8]) -> Result<(), Fail> {
    same(&history.len(), &letters.len(), "entries")?;
    entries_by(history, 1, letters)
}

/// The entries by one session have to be these, in the letters of `entries_are`.
pub fn entries_by(history: &History, who: u32, letters: &[u8]) -> Result<(), Fail> {
    let mut newest = 0u64;
    let mut pinned = 0u64;
    let mut count = 0usize;
    for entry in history.as_slice() {
        if let What::Publish(_) = entry.what {
            newest = newest.wrapping_add(1);
        }
        if entry.who == who {
            if let What::Pin = entry.what {
                pinned = newest;
            }
            let wanted = letters.get(count).copied();
            same(&Some(letter(entry.what, pinned)), &wanted, "an entry")?;
            count = count.wrapping_add(1);
        }
    }
    same(&count, &letters.len(), "entries by one session")
}

/// The letter of what happened, where this is the version that the session pinned last.
fn letter(what: What, pinned: u64) -> u8 {
    match what {
        What::Publish(_) => b'E',
        What::Pin => b'P',
        What::Unpin(version) => { if version == pinned { b'U' } else { b'?' } }
    }
}
