ghost use Rattle.std.specs.Prelude.{true};

use sessions::Reason;
use std::alloc::Global;
use std::test::Fail;
use test_desks::{
    Host, ONE, SERVE_TWO, command, command_ended, end_is, entries_by, fill, holds, plain, then_file,
};
use view_commands::{Ended, Status};
use view_ends::{Desk, EndFault, Sink, StillDesk, StillSink, StillSource};

/// An edit and a save, for an output that has too little memory.
const SAVING: &[u8] = b"edit 0 0 0 9 9 9 all 6\nsave\n";

/// The journal of the edit.
const LINE: &[u8] = b"edit 0 0 0 9 9 9 all 6\n";

/// The bytes of the reply to the edit.
const EDITED: usize = 11;

/// The script of the other session, and its reply whatever the first has done.
const ODD: &[u8] = b"save x\n";

const REFUSED: &[u8] = b"REFUSED 1\n";

/// An output that has memory for so many bytes.
#[derive(Drop)]
struct Short {
    inner: StillSink,
    most: usize,
}

impl Sink for Short {
    ghost got = { λ s. ⟦<StillSink as Sink>⟧.got s.inner };

    ghost faults = { λ s. ⟦<StillSink as Sink>⟧.faults s.inner };

    fn give(&mut self, piece: &[u8]) -> Result<usize, EndFault> {
        let room = self.most.saturating_sub(self.inner.got().len());
        if room == 0 {
            return Err(EndFault::Memory);
        }
        let most = piece.len().min(room);
        let n = self.inner.give(&piece[..most])?;
        Ok(n)
    }
}

/// A desk whose first output has memory for so many bytes.
#[derive(Drop)]
struct Cramped {
    inner: StillDesk,
    most: usize,
}

impl Desk for Cramped {
    type In = StillSource;

    type Out = Short;

    ghost tells = { true };

    ghost says = { λ d. ⟦<StillDesk as Desk>⟧.says d.inner };

    fn open_in(&mut self, name: &str) -> Result<StillSource, EndFault> {
        self.inner.open_in(name)
    }

    fn shut(&mut self, name: &str, input: StillSource) {
        self.inner.shut(name, input);
    }

    fn open_out(&mut self, name: &str) -> Result<Short, EndFault> {
        let inner = self.inner.open_out(name)?;
        let most = if name == "o1" { self.most } else { usize::MAX };
        Ok(Short { inner, most })
    }

    fn keep(&mut self, name: &str, out: Short) -> Result<(), EndFault> {
        let Short { inner, .. } = out;
        self.inner.keep(name, inner)
    }
}

/// Puts the survey of one point and the scripts on a desk.
fn prepare(alloc: Global, desk: &mut StillDesk) -> Result<(), Fail> {
    let survey = plain(alloc, &ONE)?;
    fill(alloc, desk, &[("a.las", survey.as_slice())])?;
    fill(alloc, desk, &[("i1", SAVING), ("i2", ODD)])
}

/// The first session has to have ended for want of memory after so many bytes, and the other well.
fn ended_short(ended: &Ended, length: usize) -> Result<(), Fail> {
    command_ended(ended, Status::Memory, Reason::Finished)?;
    let (marks, entries) = if length < EDITED {
        ([1].as_slice(), b"E".as_slice())
    } else {
        ([1, 1].as_slice(), b"EPU".as_slice())
    };
    let taken = SAVING.len() as u64;
    end_is(&ended.told.sessions, 0, Reason::Memory, taken, marks)?;
    entries_by(&ended.told.history, 1, entries)?;
    let taken = ODD.len() as u64;
    end_is(&ended.told.sessions, 1, Reason::Finished, taken, &[0])
}

/// Serves both sessions where the first output has memory for a front of its replies.
fn serves(rt: &impl Host, alloc: Global, front: &[u8]) -> Result<(), Fail> {
    let mut inner = StillDesk::new(alloc);
    prepare(alloc, &mut inner)?;
    let most = front.len();
    let mut desk = Cramped { inner, most };
    let ended = command(rt, alloc, &mut desk, SERVE_TWO)?;
    ended_short(&ended, most)?;
    holds(
        &desk.inner,
        &[("o1", front), ("o2", REFUSED), ("j", LINE)],
        SERVE_TWO,
    )
}

/// Serves where the first output is full in the heads of these replies, and in the saved file.
fn serves_each(rt: &impl Host, alloc: Global, all: &[u8]) -> Result<(), Fail> {
    for at in [0, 1, 10, 11, 12, 21, 22, 23, 397, 412, 416] {
        serves(rt, alloc, all.get(..at).unwrap_or(all))?;
    }
    Ok(())
}

#[test]
fn an_output_without_memory_leaves_the_other_session(rt: HostRuntime) -> Result<(), Fail> {
    let all = then_file(rt.alloc(), b"EDITED 1 1\nFILE 1 395\n", 6)?;
    serves_each(&rt, rt.alloc(), &all)
}
