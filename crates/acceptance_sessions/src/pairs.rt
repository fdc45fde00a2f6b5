use sessions::Reason;
use std::alloc::Global;
use std::test::Fail;
use test_desks::{
    Call, Host, ONE, SERVE_TWO, Shelf, VIEW, VIEWED, command, command_ended, end_is, entries_by,
    fill, holds, plain, plan, same,
};
use view_commands::{Ended, Status};
use view_ends::{DeskCall, MemDesk};

/// A count, and its reply while no edit was published.
const COUNT: &[u8] = b"count all show\n";

const COUNTED: &[u8] = b"COUNT 0 1\n";

/// What the outputs and the journal hold before a command.
const BEFORE: &[u8] = b"as it was";

/// What an output or a journal holds that was opened and then dropped.
const NONE: &[u8] = b"";

/// Puts the survey of one point and the two scripts on a desk, and plans the calls that are to fail.
fn prepare(
    alloc: Global,
    desk: &mut MemDesk,
    scripts: [&[u8]; 2],
    calls: &[Call],
) -> Result<(), Fail> {
    let survey = plain(alloc, &ONE)?;
    let [first, second] = scripts;
    fill(alloc, desk, &[("a.las", survey.as_slice())])?;
    fill(alloc, desk, &[("i1", first), ("i2", second)])?;
    fill(
        alloc,
        desk,
        &[("o1", BEFORE), ("o2", BEFORE), ("j", BEFORE)],
    )?;
    plan(desk, calls)
}

/// Serves two sessions by these scripts, with calls that are to fail.
fn served(
    rt: &impl Host,
    alloc: Global,
    desk: &mut MemDesk,
    scripts: [&[u8]; 2],
    calls: &[Call],
) -> Result<Ended, Fail> {
    prepare(alloc, desk, scripts, calls)?;
    command(rt, alloc, desk, SERVE_TWO)
}

/// The desk has to hold these two outputs and this journal.
fn left(desk: &MemDesk, files: [&[u8]; 3], told: &str) -> Result<(), Fail> {
    let [one, two, journal] = files;
    holds(desk, &[("o1", one), ("o2", two), ("j", journal)], told)
}

/// The first session has to have failed within the reply to its view, and the second to have
/// counted: version 0 is held alone, without pins.
fn failed_beside_a_count(ended: &Ended) -> Result<(), Fail> {
    command_ended(ended, Status::WriteFault { at: 5 }, Reason::Finished)?;
    let told = &ended.told;
    let taken = [VIEW.len() as u64, COUNT.len() as u64];
    end_is(&told.sessions, 0, Reason::WriteFault, taken[0], &[0])?;
    end_is(&told.sessions, 1, Reason::Finished, taken[1], &[0])?;
    same(&told.history.len(), &4, "entries")?;
    entries_by(&told.history, 1, b"PU")?;
    entries_by(&told.history, 2, b"PU")
}

#[test]
fn a_session_that_fails_leaves_the_other_as_it_is(rt: HostRuntime) -> Result<(), Fail> {
    let mut desk = MemDesk::empty(rt.alloc());
    let call: Call = ("o1", DeskCall::Give, 20);
    let ended = served(&rt, rt.alloc(), &mut desk, [VIEW, COUNT], &[call])?;
    failed_beside_a_count(&ended)?;
    left(&desk, [&VIEWED[..20], COUNTED, NONE], "a view that fails")
}
