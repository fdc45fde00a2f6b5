ghost use Rattle.std.specs.Prelude.{◌≡◌, ◌+◌, ◌-◌, ◌^◌, ◌<◌, ◌≤◌, min, None};
ghost use Rattle.std.specs.Io.{ReadsAtMost};

use crate::fault::Failed;
use crate::opened::Mark;
use crate::source::Source;
use crate::waiting::pause;
use std::io;
use std::io::{Error, ErrorKind, Read};
use std::time::Clock;

/// How many bytes are taken from one input at most: a take after as many fails.
const MOST_TAKEN: u64 = 1 << 63;

/// How many bytes of one input are expected at most: one more than the longest file that is read.
const MOST_EXPECTED: u64 = (1 << 30) + 1;

/// Where the bytes come from: a file, or standard input, with the clock by which it is waited for.
#[derive(Drop)]
pub(crate) enum Origin<F, I, C> {
    File(F),
    Standard(I, C),
}

impl<F: Read, I: Read, C: Clock> Origin<F, I, C> {
    /// Whether a read that ended so is made again: a signal cut it short, or standard input had
    /// nothing yet, and has been waited for.
    fn goes_on(&self, error: &Error) -> bool {
        match error.kind() {
            ErrorKind::Interrupted => true,
            ErrorKind::WouldBlock => self.waits(),
            _ => false,
        }
    }

    /// Waits for standard input, and for no other one.
    fn waits(&self) -> bool {
        match self {
            Origin::File(_) => false,
            Origin::Standard(_, clock) => {
                pause(clock);
                true
            }
        }
    }

    /// One read, made again as long as signals cut it short or standard input has nothing yet.
    fn read_again(&mut self, buf: &mut [u8]) -> io::Result<usize>
        ensures { ReadsAtMost result buf.new }
    {
        for _ in 0..u64::MAX {
            let answer = match self {
                Origin::File(file) => file.read(buf),
                Origin::Standard(input, _) => input.read(buf),
            };
            match answer {
                Err(error) if self.goes_on(&error) => {}
                answer => return answer,
            }
        }
        Err(Error::from(ErrorKind::Interrupted))
    }
}

/// An opened input of the system, without a buffer. It tells no bytes, counts each error as a
/// fault, and reads again where a signal cut a read short.
#[derive(Drop)]
pub struct HostSource<F, I, C> {
    origin: Origin<F, I, C>,
    mark: Mark,
    length: u64,
    taken: u64,
    faults: u64,
    ghost most: { taken ≤ 2 ^ 63 },
}

impl<F: Read, I: Read, C: Clock> HostSource<F, I, C> {
    /// An input of which nothing was taken yet, and what the system tells of it. Its length is 0
    /// where the system knows none.
    pub(crate) fn new(origin: Origin<F, I, C>, mark: Mark, length: u64) -> HostSource<F, I, C>
        ensures mark { result.mark ≡ mark }
        ensures taken { result.taken ≡ 0 }
        ensures faults { result.faults ≡ 0 }
    {
        HostSource {
            origin,
            mark,
            length,
            taken: 0,
            faults: 0,
        }
    }

    pub(crate) fn taken(&self) -> u64
        ensures { result ≡ self.now.taken }
    {
        self.taken
    }

    fn fail(&mut self) -> Failed
        ensures faults { self.new.faults ≡ min (self.old.faults + 1) (2 ^ 64 - 1) }
        ensures fits { self.old.faults < 2 ^ 64 }
        ensures taken { self.new.taken ≡ self.old.taken }
    {
        self.faults = self.faults.saturating_add(1);
        Failed
    }

    pub(crate) fn faults(&self) -> u64
        ensures { result ≡ self.now.faults }
    {
        self.faults
    }
}

impl<F: Read, I: Read, C: Clock> Source for HostSource<F, I, C> {
    ghost left = { λ _. None };

    ghost taken = { λ s. s.taken };

    ghost faults = { λ s. s.faults };

    fn take(&mut self, buf: &mut [u8]) -> Result<usize, Failed> {
        let room = MOST_TAKEN - self.taken;
        let most = buf.len().min(room as usize);
        if room == 0 {
            return Err(self.fail());
        }
        match self.origin.read_again(&mut buf[..most]) {
            Ok(n) => {
                self.taken += n as u64;
                Ok(n)
            }
            Err(_) => Err(self.fail()),
        }
    }

    fn expected(&self) -> u64 {
        self.length.saturating_sub(self.taken).min(MOST_EXPECTED)
    }
}
