ghost use Rattle.std.specs.Prelude.{◌≡◌, ◌+◌, ◌-◌, ◌^◌, ◌<◌, ◌≤◌, min, None, OnOk, OnErr};
ghost use Rattle.std.specs.Io.{WritesAtMost};

use crate::fault::EndFault;
use crate::opened::{Identity, Mark};
use crate::sink::Sink;
use crate::waiting::pause;
use std::fs::OpenFile;
use std::io;
use std::io::{Error, ErrorKind, Write};
use std::time::Clock;

/// Where the bytes go: a file, or standard output.
#[derive(Drop)]
pub(crate) enum Target<F, P> {
    File(F),
    Standard(P),
}

impl<F: Write, P: Print + Clock> Target<F, P> {
    /// Whether a write that ended so is made again: a signal cut it short, or standard output took
    /// nothing at once, and has been waited for.
    fn goes_on(&self, error: &Error) -> bool {
        match error.kind() {
            ErrorKind::Interrupted => true,
            ErrorKind::WouldBlock => self.waits(),
            _ => false,
        }
    }

    /// Waits for standard output, and for no other one.
    fn waits(&self) -> bool {
        match self {
            Target::File(_) => false,
            Target::Standard(clock) => {
                pause(clock);
                true
            }
        }
    }

    /// One write, made again as long as signals cut it short or standard output takes nothing.
    fn write_again(&mut self, piece: &[u8]) -> io::Result<usize>
        ensures { WritesAtMost result piece.now }
    {
        for _ in 0..u64::MAX {
            let answer = match self {
                Target::File(file) => file.write(piece),
                Target::Standard(printer) => printer.write_some(piece),
            };
            match answer {
                Err(error) if self.goes_on(&error) => {}
                answer => return answer,
            }
        }
        Err(Error::from(ErrorKind::Interrupted))
    }
}

/// An opened output of the system, without a buffer. It tells no bytes, counts each error as a
/// fault and a write that takes nothing too, and writes again where a signal cut a write short. A
/// regular file is cut when its first byte is given or when it is kept, and not before; when it is
/// kept, the system is told to store it.
#[derive(Drop)]
pub struct HostSink<F, P> {
    target: Target<F, P>,
    mark: Mark,
    uncut: bool,
    faults: u64,
}

impl<F: Write + OpenFile, P: Print + Clock> HostSink<F, P> {
    /// An output that got nothing yet, and what the system tells of it.
    pub(crate) fn new(target: Target<F, P>, mark: Mark) -> HostSink<F, P>
        ensures mark { result.mark ≡ mark }
        ensures faults { result.faults ≡ 0 }
    {
        HostSink {
            target,
            mark,
            uncut: mark.file().is_some(),
            faults: 0,
        }
    }

    /// The regular file that is written.
    pub(crate) fn file(&self) -> Option<Identity>
        ensures { result ≡ self.now.mark.file }
    {
        self.mark.file()
    }

    pub(crate) fn faults(&self) -> u64
        ensures { result ≡ self.now.faults }
    {
        self.faults
    }

    /// Cuts a regular file that still has the bytes that it had when it was opened.
    fn cut(&mut self) -> io::Result<()>
        ensures { self.new.faults ≡ self.old.faults }
    {
        if !self.uncut {
            return Ok(());
        }
        if let Target::File(file) = &self.target {
            file.set_len(0)?;
        }
        self.uncut = false;
        Ok(())
    }

    /// Cuts the file, where that is still to do, and writes.
    fn write(&mut self, piece: &[u8]) -> io::Result<usize>
        ensures written { WritesAtMost result piece.now }
        ensures faults { self.new.faults ≡ self.old.faults }
    {
        self.cut()?;
        self.target.write_again(piece)
    }

    /// Leaves an output that got nothing empty, and lets the system store a regular file, so that
    /// it outlasts a loss of power. Standard output, pipes and devices hold nothing back.
    pub(crate) fn finish(&mut self) -> io::Result<()> {
        self.cut()?;
        match &mut self.target {
            Target::File(file) => {
                file.flush()?;
                store(file, self.mark)
            }
            Target::Standard(_) => Ok(()),
        }
    }
}

/// Lets the system store what a regular file got. Whatever else was opened isn't asked.
fn store<F: OpenFile>(file: &F, mark: Mark) -> io::Result<()> {
    match mark.file() {
        Some(_) => file.sync_all(),
        None => Ok(()),
    }
}

impl<F: Write + OpenFile, P: Print + Clock> Sink for HostSink<F, P> {
    ghost got = { λ _. None };

    ghost faults = { λ s. s.faults };

    fn give(&mut self, piece: &[u8]) -> Result<usize, EndFault> {
        if piece.is_empty() {
            return Ok(0);
        }
        match self.write(piece) {
            Ok(n) if 0 < n => Ok(n),
            _ => {
                self.faults = self.faults.saturating_add(1);
                Err(EndFault::Failed)
            }
        }
    }
}
