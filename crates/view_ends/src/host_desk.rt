ghost use Rattle.std.specs.Prelude.{◌≡◌, None, false, IfSome};
ghost use Rattle.std.specs.Fs.{file_type};
ghost use Rattle.view_ends.specs.Calls.{IsNew};

use crate::beginning::may_be_survey;
use crate::desk::Desk;
use crate::fault::EndFault;
use crate::host_sink::{HostSink, Target};
use crate::host_source::{HostSource, Origin};
use crate::ledger::{Counts, Ledger, NOTHING, OPENED, UNOPENED, UNWRITTEN};
use crate::opened::{Identity, Mark, Opened};
use std::alloc::Global;
use std::fs::{Metadata, OpenFile, OpenOptions};
use std::rt::Files;
use std::time::Clock;
use std::{fs, io};

/// The name of standard input and of standard output.
const STANDARD: &str = "-";

/// A name of the system that leads to what standard input is.
const INPUT: &str = "/proc/self/fd/0";

/// A name of the system that leads to what standard output is.
const OUTPUT: &str = "/proc/self/fd/1";

/// The desk of the system: its files, and its standard streams under the name `-`, each of which
/// can be opened once. It tells no bytes, and counts each error as a fault.
///
/// No regular file that this desk opened, by whatever name or link or as a standard stream, is
/// opened to write again, and none is opened to read while it is written: the opening fails. Nor
/// is a regular file opened to write that begins as a survey does. An opening to write leaves a
/// regular file as it is; the file is cut when its first byte is given or when it is kept. No file
/// takes the number of a standard stream that is closed.
#[derive(Drop)]
pub struct HostDesk<R> {
    rt: R,
    ledger: Ledger,
    opened: Opened,
    input_opened: bool,
    output_opened: bool,
}

impl<R: Files + Input + Print + Clock + Copy + Send> HostDesk<R>
where
    R::File: Send,
    R::Reader: Send,
{
    /// The desk of this runtime, of which no name was opened yet.
    pub fn new(rt: R, alloc: Global) -> HostDesk<R>
        ensures { IsNew (⟦<HostDesk<R> as Desk>⟧.says result) }
    {
        HostDesk {
            rt,
            ledger: Ledger::new(alloc),
            opened: Opened::new(alloc),
            input_opened: false,
            output_opened: false,
        }
    }
}

impl<R: Files + Input + Print + Clock + Copy> HostDesk<R> {
    ghost use Rattle.view_ends.specs.Opened.{HasRoom, ReadsApart, WritesApart};

    /// Notes what is opened to read, and answers `None` where it is written.
    fn note_input(&mut self, about: &Metadata) -> Option<Mark>
        requires { HasRoom self.old.opened }
        ensures ledger { self.new.ledger ≡ self.old.ledger }
        ensures kind { IfSome result (λ mark. mark.kind ≡ file_type about.now) }
        ensures apart { IfSome result (ReadsApart self.old.opened self.new.opened) }
    {
        let mark = Mark::of(about);
        if let Some(file) = mark.file() {
            if self.opened.is_written(file) {
                return None;
            }
            self.opened.note_read(file);
        }
        Some(mark)
    }

    /// Notes what is opened to write, and answers `None` where it was opened before or may be a
    /// survey, as a name that leads there shows.
    fn note_output(&mut self, about: &Metadata, name: &str) -> Option<Mark>
        requires { HasRoom self.old.opened }
        ensures ledger { self.new.ledger ≡ self.old.ledger }
        ensures kind { IfSome result (λ mark. mark.kind ≡ file_type about.now) }
        ensures apart { IfSome result (WritesApart self.old.opened self.new.opened) }
    {
        let mark = Mark::of(about);
        if let Some(file) = mark.file() {
            if self.opened.has(file) || may_be_survey(&self.rt, name, file, about) {
                return None;
            }
            self.opened.note_written(file);
        }
        Some(mark)
    }

    /// Notes that what was kept is written no more.
    fn note_kept(&mut self, file: Option<Identity>)
        ensures ledger { self.new.ledger ≡ self.old.ledger }
        ensures files { self.new.opened.files.items ≡ self.old.opened.files.items }
    {
        if let Some(file) = file {
            self.opened.close(file);
        }
    }

    /// Opens standard input, once, and answers `None` where it is closed too.
    fn standard_input(&mut self) -> Option<HostSource<R::File, R::Reader, R>>
        requires { HasRoom self.old.opened }
        ensures ledger { self.new.ledger ≡ self.old.ledger }
        ensures fresh { IfSome result (λ input. (input.taken ≡ 0) × (input.faults ≡ 0)) }
        ensures apart { IfSome result (λ input. ReadsApart self.old.opened self.new.opened input.mark) }
    {
        if self.input_opened {
            return None;
        }
        let about = fs::metadata(&self.rt, INPUT).ok()?;
        let mark = self.note_input(&about)?;
        self.input_opened = true;
        Some(HostSource::new(Origin::Standard(self.rt.reader(), self.rt), mark, 0))
    }

    /// Opens standard output, once, and answers `None` where it is closed too.
    fn standard_output(&mut self) -> Option<HostSink<R::File, R>>
        requires { HasRoom self.old.opened }
        ensures ledger { self.new.ledger ≡ self.old.ledger }
        ensures fresh { IfSome result (λ out. out.faults ≡ 0) }
        ensures apart { IfSome result (λ out. WritesApart self.old.opened self.new.opened out.mark) }
    {
        if self.output_opened {
            return None;
        }
        let about = fs::metadata(&self.rt, OUTPUT).ok()?;
        let mark = self.note_output(&about, OUTPUT)?;
        self.output_opened = true;
        Some(HostSink::new(Target::Standard(self.rt), mark))
    }

    /// Opens a name for reading, and answers `None` where that failed or the file is written.
    fn input(&mut self, name: &str) -> Option<HostSource<R::File, R::Reader, R>>
        requires { HasRoom self.old.opened }
        ensures ledger { self.new.ledger ≡ self.old.ledger }
        ensures fresh { IfSome result (λ input. (input.taken ≡ 0) × (input.faults ≡ 0)) }
        ensures apart { IfSome result (λ input. ReadsApart self.old.opened self.new.opened input.mark) }
    {
        if name == STANDARD {
            return self.standard_input();
        }
        let file = off_streams(fs::open(&self.rt, name)).ok()?;
        let about = file.metadata().ok()?;
        let mark = self.note_input(&about)?;
        let length = match mark.file() {
            Some(_) => about.len(),
            None => 0,
        };
        Some(HostSource::new(Origin::File(file), mark, length))
    }

    /// Opens a name for writing, and answers `None` where that failed, the file was opened before
    /// or it may be a survey.
    fn output(&mut self, name: &str) -> Option<HostSink<R::File, R>>
        requires { HasRoom self.old.opened }
        ensures ledger { self.new.ledger ≡ self.old.ledger }
        ensures fresh { IfSome result (λ out. out.faults ≡ 0) }
        ensures apart { IfSome result (λ out. WritesApart self.old.opened self.new.opened out.mark) }
    {
        if name == STANDARD {
            return self.standard_output();
        }
        let file = off_streams(open_uncut(&self.rt, name)).ok()?;
        let about = file.metadata().ok()?;
        let mark = self.note_output(&about, name)?;
        Some(HostSink::new(Target::File(file), mark))
    }
}

/// Opens a file for writing, and makes it where it isn't there. It keeps its bytes.
fn open_uncut<R: Files>(rt: &R, name: &str) -> io::Result<R::File> {
    let mut how = OpenOptions::new();
    how.write(true).create(true);
    how.open(rt, name)
}

/// The same opened file under a number above those of the standard streams: the system gives the
/// least number that is free, which is a stream's where that was closed.
fn off_streams<F: OpenFile + Drop>(opened: io::Result<F>) -> io::Result<F> {
    opened?.try_clone()
}

impl<R: Files + Input + Print + Clock + Copy + Send> Desk for HostDesk<R>
where
    R::File: Send,
    R::Reader: Send,
{
    ghost use Rattle.view_ends.specs.Ledger.{said};

    type In = HostSource<R::File, R::Reader, R>;

    type Out = HostSink<R::File, R>;

    ghost tells = { false };

    ghost says = { λ d. said (λ _. None) d.ledger };

    fn open_in(&mut self, name: &str) -> Result<HostSource<R::File, R::Reader, R>, EndFault> {
        self.opened.reserve()?;
        self.ledger.enter(name)?;
        match self.input(name) {
            Some(input) => {
                self.ledger.add(name, OPENED);
                Ok(input)
            }
            None => {
                self.ledger.add(name, UNOPENED);
                Err(EndFault::Failed)
            }
        }
    }

    #[tactic(auto, using(crate::proofs::Known::entered_if_known))]
    fn shut(&mut self, name: &str, input: HostSource<R::File, R::Reader, R>) {
        let counts = Counts {
            taken: input.taken(),
            read_faults: input.faults(),
            ..NOTHING
        };
        self.ledger.add(name, counts);
    }

    fn open_out(&mut self, name: &str) -> Result<HostSink<R::File, R>, EndFault> {
        self.opened.reserve()?;
        self.ledger.enter(name)?;
        match self.output(name) {
            Some(out) => {
                self.ledger.add(name, OPENED);
                Ok(out)
            }
            None => {
                self.ledger.add(name, UNWRITTEN);
                Err(EndFault::Failed)
            }
        }
    }

    #[tactic(auto, using(crate::proofs::Known::entered_if_known))]
    fn keep(&mut self, name: &str, mut out: HostSink<R::File, R>) -> Result<(), EndFault> {
        let write_faults = out.faults();
        if out.finish().is_err() {
            self.ledger.add(name, Counts::refused(write_faults));
            return Err(EndFault::Failed);
        }
        self.note_kept(out.file());
        let counts = Counts {
            write_faults,
            ..NOTHING
        };
        self.ledger.add(name, counts);
        Ok(())
    }
}
