use std::alloc::Allocator;
use std::fmt::Display;
use std::fs::{Metadata, OpenFile, OpenOptions};
use std::io::{Error, ErrorKind, Read, Result, Seek, SeekFrom, Write};
use std::rt::Files;
use std::time::{Clock, Duration};

/// What goes wrong with each file of a system.
#[derive(Clone, Copy, PartialEq, Eq)]
pub(crate) enum Trouble {
    /// A signal cuts its first read and its first write short.
    Signal,
    /// The system can't store it.
    Unstored,
}

/// The files of another system, each of which has this trouble.
#[derive(Clone, Copy)]
pub(crate) struct Unsteady<R> {
    pub(crate) host: R,
    pub(crate) trouble: Trouble,
}

/// A file of such a system, and whether a signal is still to come.
#[derive(Drop)]
pub(crate) struct UnsteadyFile<F> {
    file: F,
    trouble: Trouble,
    signal: bool,
}

impl<F> UnsteadyFile<F> {
    fn new(file: F, trouble: Trouble) -> UnsteadyFile<F> {
        UnsteadyFile {
            file,
            trouble,
            signal: trouble == Trouble::Signal,
        }
    }

    /// Whether a call is cut short, which uses the signal up.
    fn is_cut_short(&mut self) -> bool {
        let signal = self.signal;
        self.signal = false;
        signal
    }
}

impl<F: Read> Read for UnsteadyFile<F> {
    fn read(&mut self, buf: &mut [u8]) -> Result<usize> {
        if self.is_cut_short() {
            return Err(Error::from(ErrorKind::Interrupted));
        }
        self.file.read(buf)
    }
}

impl<F: Write> Write for UnsteadyFile<F> {
    fn write(&mut self, buf: &[u8]) -> Result<usize> {
        if self.is_cut_short() {
            return Err(Error::from(ErrorKind::Interrupted));
        }
        self.file.write(buf)
    }

    fn flush(&mut self) -> Result<()> {
        self.file.flush()
    }
}

impl<F> Seek for UnsteadyFile<F> {
    fn seek(&mut self, _to: SeekFrom) -> Result<u64> {
        Err(Error::from(ErrorKind::Unsupported))
    }
}

impl<F: OpenFile> OpenFile for UnsteadyFile<F> {
    fn metadata(&self) -> Result<Metadata> {
        self.file.metadata()
    }

    fn set_len(&self, size: u64) -> Result<()> {
        self.file.set_len(size)
    }

    fn sync_all(&self) -> Result<()> {
        if self.trouble == Trouble::Unstored {
            return Err(Error::from(ErrorKind::Other));
        }
        self.file.sync_all()
    }

    fn sync_data(&self) -> Result<()> {
        self.sync_all()
    }

    fn try_clone(&self) -> Result<Self> {
        Ok(UnsteadyFile::new(self.file.try_clone()?, self.trouble))
    }
}

impl<R: Files> Files for Unsteady<R> {
    type File = UnsteadyFile<R::File>;

    type Dir = R::Dir;

    fn open_file(&self, how: &OpenOptions, path: &str) -> Result<UnsteadyFile<R::File>> {
        Ok(UnsteadyFile::new(self.host.open_file(how, path)?, self.trouble))
    }

    fn open_dir(&self, path: &str) -> Result<R::Dir> {
        self.host.open_dir(path)
    }

    fn metadata(&self, path: &str) -> Result<Metadata> {
        self.host.metadata(path)
    }

    fn symlink_metadata(&self, path: &str) -> Result<Metadata> {
        self.host.symlink_metadata(path)
    }

    fn copy(&self, from: &str, to: &str) -> Result<u64> {
        self.host.copy(from, to)
    }

    fn rename(&self, from: &str, to: &str) -> Result<()> {
        self.host.rename(from, to)
    }

    fn remove_file(&self, path: &str) -> Result<()> {
        self.host.remove_file(path)
    }

    fn create_dir(&self, path: &str) -> Result<()> {
        self.host.create_dir(path)
    }

    fn remove_dir(&self, path: &str) -> Result<()> {
        self.host.remove_dir(path)
    }

    fn remove_dir_all<B: Allocator>(&self, alloc: B, path: &str) -> Result<()> {
        self.host.remove_dir_all(alloc, path)
    }
}

impl<R: Input> Input for Unsteady<R> {
    ghost use Rattle.std.specs.Prelude.{◌≡◌, ◌+◌, IfOk, string_len};

    type Reader = R::Reader;

    fn read_line<A: Allocator + Clone>(&self, buf: &mut String<A>) -> Result<usize> {
        self.host.read_line(buf)
    }

    fn lines<A: Allocator>(&self, alloc: A) -> std::io::Lines<R::Reader, A> {
        self.host.lines(alloc)
    }

    fn reader(&self) -> R::Reader {
        self.host.reader()
    }
}

impl<R: Print> Print for Unsteady<R> {
    fn print<D: Display + Drop>(&self, value: D) -> Result<()> {
        self.host.print(value)
    }

    fn println<D: Display + Drop>(&self, value: D) -> Result<()> {
        self.host.println(value)
    }

    fn write_all(&self, bytes: &[u8]) -> Result<()> {
        self.host.write_all(bytes)
    }
}

impl<R: Clock> Clock for Unsteady<R> {
    fn monotonic(&self) -> Result<Duration> {
        self.host.monotonic()
    }

    fn since_1970(&self) -> Result<Duration> {
        self.host.since_1970()
    }

    fn sleep(&self, duration: Duration) {
        self.host.sleep(duration)
    }
}
