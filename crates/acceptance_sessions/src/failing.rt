use sessions::Reason;
use std::alloc::Global;
use std::test::Fail;
use test_desks::{
    CLASS_2, Call, File, Host, ONE, ONE_PIXEL, SERVE, Shelf, TEXT, command, command_ended, ends,
    fill, holds_after, plain, plan, session_ended,
};
use view_commands::{Ended, Status};
use view_ends::{DeskCall, MemDesk};

/// What a file that is written holds before a command.
const BEFORE: &[u8] = b"as it was";

/// The files that are written, before a command.
const OLD: [File; 3] = [("a.ppm", BEFORE), ("o", BEFORE), ("j", BEFORE)];

/// An edit and a save.
const SAVING: &[u8] = b"edit 0 0 0 9 9 9 all 6\nsave\n";

/// A trial without records, and its summary. Of the replies the lines of the two pictures have 17 bytes
/// each, which add up to 977 and 978, each picture 196623, of which those of its header add up to 666
/// and all else is 0, and `EDITED 1 0` and `COUNT 1 0` with LF 11 and 10, which add up to 602 and 564.
const TRIAL: &str = "trial 5 0 1 a.ppm";

const SUMMARY: &[u8] = b"records 0\nbytes 375\nreplies 393301\nsum 4453\n";

const INFO: &str = "info a.las a.ppm";

/// Puts the files of every command on a desk, and plans the call that is to fail.
fn prepare(alloc: Global, desk: &mut MemDesk, call: Call) -> Result<(), Fail> {
    let survey = plain(alloc, &ONE)?;
    let files: [File; 5] = [
        ("a.las", survey.as_slice()),
        ("a.ppm", BEFORE),
        ("i", SAVING),
        ("o", BEFORE),
        ("j", BEFORE),
    ];
    fill(alloc, desk, &files)?;
    plan(desk, &[call])
}

/// Runs a line with one call that is to fail, which has to end so and to leave these files.
fn fails(
    rt: &impl Host,
    alloc: Global,
    line: &str,
    call: Call,
    status: Status,
    files: &[File],
) -> Result<(), Fail> {
    let mut desk = MemDesk::empty(alloc);
    prepare(alloc, &mut desk, call)?;
    ends(rt, alloc, &mut desk, line, status)?;
    holds_after(&desk, call, files)
}

/// Runs a line that writes this to the word of this place, where OUT fails: it can't be opened, takes
/// three bytes, or can't be kept; and where the one call that is to fail never comes.
fn out_fails(rt: &impl Host, alloc: Global, line: &str, at: u32, whole: &[u8]) -> Result<(), Fail> {
    let all: [File; 1] = [("a.ppm", whole)];
    let front: [File; 1] = [("a.ppm", whole.get(..3).unwrap_or(whole))];
    let written = Status::WriteFault { at };
    let never = ("a.ppm", DeskCall::Give, whole.len() as u64);
    let opening = ("a.ppm", DeskCall::OpenOut, 0);
    fails(rt, alloc, line, opening, Status::OpenFault { at }, &OLD)?;
    fails(
        rt,
        alloc,
        line,
        ("a.ppm", DeskCall::Give, 3),
        written,
        &front,
    )?;
    fails(rt, alloc, line, ("a.ppm", DeskCall::Keep, 0), written, &[])?;
    fails(rt, alloc, line, never, Status::Done, &all)
}

#[test]
fn a_picture_a_text_and_a_summary_that_fail_are_told(rt: HostRuntime) -> Result<(), Fail> {
    out_fails(&rt, rt.alloc(), ONE_PIXEL, 2, CLASS_2)?;
    out_fails(&rt, rt.alloc(), INFO, 2, TEXT)?;
    out_fails(&rt, rt.alloc(), TRIAL, 4, SUMMARY)
}

/// Runs a line over a survey that can't be opened, or can't be read behind so many bytes.
fn survey_fails(rt: &impl Host, alloc: Global, line: &str) -> Result<(), Fail> {
    let opening = ("a.las", DeskCall::OpenIn, 0);
    fails(rt, alloc, line, opening, Status::OpenFault { at: 1 }, &OLD)?;
    for at in [0, 1, 374, 375, 394, 395] {
        let read = ("a.las", DeskCall::Take, at);
        fails(rt, alloc, line, read, Status::ReadFault { at: 1 }, &OLD)?;
    }
    Ok(())
}

#[test]
fn a_survey_that_fails_leaves_every_file(rt: HostRuntime) -> Result<(), Fail> {
    for line in [ONE_PIXEL, INFO, SERVE] {
        survey_fails(&rt, rt.alloc(), line)?;
    }
    Ok(())
}

/// The session has to have ended for this reason, with so many bytes taken and so many marks of 1.
fn has_ended(ended: &Ended, reason: Reason, taken: u64, marks: usize) -> Result<(), Fail> {
    let ones: &[u64] = &[1, 1];
    session_ended(ended, reason, taken, ones.get(..marks).unwrap_or(ones))
}

/// Serves an edit and a save with one call that is to fail, and answers how that ended.
fn served(rt: &impl Host, alloc: Global, call: Call) -> Result<Ended, Fail> {
    let mut desk = MemDesk::empty(alloc);
    prepare(alloc, &mut desk, call)?;
    command(rt, alloc, &mut desk, SERVE)
}

/// Serves with a read that fails behind so many bytes.
fn read_fails(rt: &impl Host, alloc: Global, at: u64, marks: usize) -> Result<(), Fail> {
    let ended = served(rt, alloc, ("i", DeskCall::Take, at))?;
    command_ended(&ended, Status::ReadFault { at: 4 }, Reason::Finished)?;
    has_ended(&ended, Reason::ReadFault, at, marks)
}

/// Serves with a write that fails behind so many bytes of the replies.
fn write_fails(rt: &impl Host, alloc: Global, at: u64, marks: usize) -> Result<(), Fail> {
    let ended = served(rt, alloc, ("o", DeskCall::Give, at))?;
    command_ended(&ended, Status::WriteFault { at: 5 }, Reason::Finished)?;
    has_ended(&ended, Reason::WriteFault, SAVING.len() as u64, marks)
}

/// Serves with a call on the journal that fails once the session has finished.
fn journal_fails(rt: &impl Host, alloc: Global, kind: DeskCall, at: u64) -> Result<(), Fail> {
    let ended = served(rt, alloc, ("j", kind, at))?;
    command_ended(&ended, Status::WriteFault { at: 3 }, Reason::WriteFault)?;
    has_ended(&ended, Reason::Finished, SAVING.len() as u64, 2)
}

#[test]
fn a_session_that_fails_is_told_with_what_it_took_and_marked(rt: HostRuntime) -> Result<(), Fail> {
    // The edit has 23 bytes, its reply 11.
    for (at, marks) in [(0, 0), (22, 0), (23, 1), (27, 1), (28, 2)] {
        read_fails(&rt, rt.alloc(), at, marks)?;
    }
    for (at, marks) in [(0, 1), (10, 1), (11, 2), (416, 2)] {
        write_fails(&rt, rt.alloc(), at, marks)?;
    }
    for (kind, at) in [
        (DeskCall::Give, 0),
        (DeskCall::Give, 22),
        (DeskCall::Keep, 0),
    ] {
        journal_fails(&rt, rt.alloc(), kind, at)?;
    }
    Ok(())
}
