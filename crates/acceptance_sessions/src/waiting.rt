ghost use Rattle.std.specs.Prelude.{◌-◌, ◌^◌, false, None};

use sessions::Reason;
use std::alloc::Global;
use std::hint::spin_loop;
use std::sync::atomic::{AtomicU64, Ordering};
use std::test::Fail;
use test_desks::{Host, ONE, SERVE_TWO, command, command_ended, end_is, fill, holds, plain};
use view_commands::{Ended, Status};
use view_ends::{Desk, EndFault, Failed, Sink, Source, StillDesk, StillSink, StillSource};

/// How often an input looks for the other session's reply before it fails.
const TURNS: u32 = 100_000_000;

/// A line of either session.
const LINE: &[u8] = b"count all show\n";

/// Whether a count passes this number before it was looked at very often.
pub(crate) fn passes(count: &AtomicU64, number: u64) -> bool {
    for _ in 0..TURNS {
        if count.load(Ordering::SeqCst) > number {
            return true;
        }
        spin_loop();
    }
    false
}

/// An input. One that waits gives its first line, and the rest once the other session was answered;
/// it fails where no answer comes.
#[derive(Drop)]
struct Waiting<'a> {
    inner: StillSource,
    waits: bool,
    answers: &'a AtomicU64,
    faults: u64,
}

impl<'a> Source for Waiting<'a> {
    ghost left = { λ _. None };

    ghost taken = { λ s. ⟦<StillSource as Source>⟧.taken s.inner };

    ghost faults = { λ s. s.faults };

    fn take(&mut self, buf: &mut [u8]) -> Result<usize, Failed> {
        let rest = (LINE.len() as u64).saturating_sub(self.inner.taken());
        if self.waits && rest == 0 && !passes(self.answers, 0) {
            self.faults = self.faults.saturating_add(1);
            return Err(Failed);
        }
        let first = self.waits && rest > 0;
        let most = if first {
            buf.len().min(rest as usize)
        } else {
            buf.len()
        };
        let n = self.inner.take(&mut buf[..most])?;
        Ok(n)
    }
}

/// An output, which may count what it gets.
#[derive(Drop)]
struct Counting<'a> {
    inner: StillSink,
    counts: bool,
    answers: &'a AtomicU64,
}

impl<'a> Sink for Counting<'a> {
    ghost got = { λ _. None };

    ghost faults = { λ s. ⟦<StillSink as Sink>⟧.faults s.inner };

    fn give(&mut self, piece: &[u8]) -> Result<usize, EndFault> {
        let n = self.inner.give(piece)?;
        if self.counts {
            self.answers.fetch_add(1, Ordering::SeqCst);
        }
        Ok(n)
    }
}

/// A desk whose first input waits for an answer in its second output. It tells nothing of its files,
/// and its counts of failed reads stand at their end.
#[derive(Drop)]
struct Turning<'a> {
    inner: StillDesk,
    answers: &'a AtomicU64,
}

impl<'a> Desk for Turning<'a> {
    type In = Waiting<'a>;

    type Out = Counting<'a>;

    ghost tells = { false };

    ghost says = { λ d. record (⟦<StillDesk as Desk>⟧.says d.inner) { file = λ _. None; reads = λ _. 2 ^ 64 - 1 } };

    fn open_in(&mut self, name: &str) -> Result<Waiting<'a>, EndFault> {
        let inner = self.inner.open_in(name)?;
        Ok(Waiting {
            inner,
            waits: name == "i1",
            answers: self.answers,
            faults: 0,
        })
    }

    fn shut(&mut self, name: &str, input: Waiting<'a>) {
        let Waiting { inner, .. } = input;
        self.inner.shut(name, inner);
    }

    fn open_out(&mut self, name: &str) -> Result<Counting<'a>, EndFault> {
        let inner = self.inner.open_out(name)?;
        Ok(Counting {
            inner,
            counts: name == "o2",
            answers: self.answers,
        })
    }

    fn keep(&mut self, name: &str, out: Counting<'a>) -> Result<(), EndFault> {
        let Counting { inner, .. } = out;
        self.inner.keep(name, inner)
    }
}

/// Puts the survey of one point and the two scripts on a desk.
fn prepare(alloc: Global, desk: &mut StillDesk) -> Result<(), Fail> {
    let survey = plain(alloc, &ONE)?;
    let twice = b"count all show\ncount all show\n";
    fill(
        alloc,
        desk,
        &[("a.las", survey.as_slice()), ("i1", twice), ("i2", LINE)],
    )
}

/// Both sessions have to have ended well.
fn ended_well(ended: &Ended) -> Result<(), Fail> {
    let taken = LINE.len() as u64;
    let done = Reason::Finished;
    end_is(&ended.told.sessions, 0, done, 2 * taken, &[0, 0])?;
    end_is(&ended.told.sessions, 1, done, taken, &[0])?;
    command_ended(ended, Status::Done, done)
}

/// Serves the two sessions over a desk of these files.
fn serves(rt: &impl Host, alloc: Global, inner: StillDesk) -> Result<(), Fail> {
    let answers = AtomicU64::new(0);
    let mut desk = Turning {
        inner,
        answers: &answers,
    };
    let ended = command(rt, alloc, &mut desk, SERVE_TWO)?;
    ended_well(&ended)?;
    let one = b"COUNT 0 1\nCOUNT 0 1\n";
    holds(
        &desk.inner,
        &[("o1", one), ("o2", b"COUNT 0 1\n")],
        SERVE_TWO,
    )
}

#[test]
fn a_session_that_waits_for_another_s_reply_gets_it(rt: HostRuntime) -> Result<(), Fail> {
    let mut desk = StillDesk::new(rt.alloc());
    prepare(rt.alloc(), &mut desk)?;
    serves(&rt, rt.alloc(), desk)
}
