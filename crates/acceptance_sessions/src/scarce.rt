ghost use Rattle.std.specs.Prelude.{◌-◌, ◌^◌, true};

use sessions::Reason;
use std::alloc::Global;
use std::test::Fail;
use test_desks::{
    File, Host, ONE, SERVE, SERVE_TWO, command, command_ended, end_is, entries_by, fill, holds,
    plain, then_file,
};
use view_commands::{Ended, Status};
use view_ends::{Desk, EndFault, StillDesk, StillSink, StillSource};

/// An edit and a save.
const SAVING: &[u8] = b"edit 0 0 0 9 9 9 all 6\nsave\n";

/// The journal of the edit.
const LINE: &[u8] = b"edit 0 0 0 9 9 9 all 6\n";

/// The script of the other session, and its reply whatever the first has done.
const ODD: &[u8] = b"save x\n";

const REFUSED: &[u8] = b"REFUSED 1\n";

/// A desk that has no memory to keep the file of one name. Its counts of refused keepings stand at
/// their end.
#[derive(Drop)]
struct Scarce<'a> {
    inner: StillDesk,
    name: &'a str,
}

impl<'a> Desk for Scarce<'a> {
    type In = StillSource;

    type Out = StillSink;

    ghost tells = { true };

    ghost says = { λ d. record (⟦<StillDesk as Desk>⟧.says d.inner) { unkept = λ _. 2 ^ 64 - 1 } };

    fn open_in(&mut self, name: &str) -> Result<StillSource, EndFault> {
        self.inner.open_in(name)
    }

    fn shut(&mut self, name: &str, input: StillSource) {
        self.inner.shut(name, input);
    }

    fn open_out(&mut self, name: &str) -> Result<StillSink, EndFault> {
        self.inner.open_out(name)
    }

    fn keep(&mut self, name: &str, out: StillSink) -> Result<(), EndFault> {
        if name == self.name {
            return Err(EndFault::Memory);
        }
        self.inner.keep(name, out)
    }
}

/// Puts the survey of one point and the scripts on a desk.
fn prepare(alloc: Global, desk: &mut StillDesk) -> Result<(), Fail> {
    let survey = plain(alloc, &ONE)?;
    fill(alloc, desk, &[("a.las", survey.as_slice())])?;
    fill(alloc, desk, &[("i", SAVING), ("i1", SAVING), ("i2", ODD)])
}

/// The first session has to have finished with its edit and its save, and the command for want of
/// memory.
fn finished(ended: &Ended, journal: Reason) -> Result<(), Fail> {
    command_ended(ended, Status::Memory, journal)?;
    let (taken, marks) = (SAVING.len() as u64, [1, 1]);
    end_is(&ended.told.sessions, 0, Reason::Finished, taken, &marks)?;
    entries_by(&ended.told.history, 1, b"EPU")
}

/// Serves over a desk that has no memory to keep the file of this name, which has to leave these.
fn serves(
    rt: &impl Host,
    alloc: Global,
    line: &str,
    name: &str,
    journal: Reason,
    files: &[File],
) -> Result<(), Fail> {
    let mut inner = StillDesk::new(alloc);
    prepare(alloc, &mut inner)?;
    let mut desk = Scarce { inner, name };
    let ended = command(rt, alloc, &mut desk, line)?;
    finished(&ended, journal)?;
    holds(&desk.inner, files, name)
}

/// Serves one session whose output, and then whose journal, can't be kept for want of memory.
fn one_serves(rt: &impl Host, alloc: Global, all: &[u8]) -> Result<(), Fail> {
    let (journal, out): (File, File) = (("j", LINE), ("o", all));
    serves(rt, alloc, SERVE, "o", Reason::Finished, &[journal])?;
    serves(rt, alloc, SERVE, "j", Reason::Memory, &[out])
}

/// Serves two sessions, of which one's output, and then whose journal, can't be kept.
fn two_serve(rt: &impl Host, alloc: Global, all: &[u8]) -> Result<(), Fail> {
    let (journal, one): (File, File) = (("j", LINE), ("o1", all));
    let two: File = ("o2", REFUSED);
    serves(
        rt,
        alloc,
        SERVE_TWO,
        "o1",
        Reason::Finished,
        &[two, journal],
    )?;
    serves(
        rt,
        alloc,
        SERVE_TWO,
        "o2",
        Reason::Finished,
        &[one, journal],
    )?;
    serves(rt, alloc, SERVE_TWO, "j", Reason::Memory, &[one, two])
}

#[test]
fn a_keeping_without_memory_comes_after_sessions_that_finish(rt: HostRuntime) -> Result<(), Fail> {
    let all = then_file(rt.alloc(), b"EDITED 1 1\nFILE 1 395\n", 6)?;
    one_serves(&rt, rt.alloc(), &all)?;
    two_serve(&rt, rt.alloc(), &all)
}
