ghost use Rattle.std.specs.Prelude.{◌≡◌, ◌↔◌, ◌++◌, ◌∷◌, [], IsPermutation, IsSome, IsTrue, MatchOption, OnOk, Some, slice_get};
ghost use Rattle.std.specs.Fs.{file_type, IsFile};

use std::alloc::Global;
use std::fs::{FileType, Metadata};
use std::os::unix::fs::MetadataExt;
use view_base::OutOfMemory;

/// A regular file of the system, by its device and its number there: the same for each spelling
/// of its name, and for each link to it.
#[derive(Clone, Copy, Debug, PartialEq, Eq)]
pub(crate) struct Identity {
    device: u64,
    number: u64,
}

/// What the system tells of an opened end: its kind, and which file it is where that is a regular
/// one.
#[derive(Clone, Copy, Debug)]
pub(crate) struct Mark {
    kind: FileType,
    file: Option<Identity>,
    ghost marked: { IsSome file ↔ IsFile kind },
}

impl Mark {
    /// The mark of what was opened.
    pub(crate) fn of(about: &Metadata) -> Mark
        ensures { result.kind ≡ file_type about.now }
    {
        let kind = about.file_type();
        if !kind.is_file() {
            return Mark { kind, file: None };
        }
        let file = Identity {
            device: about.dev(),
            number: about.ino(),
        };
        Mark {
            kind,
            file: Some(file),
        }
    }

    /// Which regular file was opened.
    pub(crate) fn file(&self) -> Option<Identity>
        ensures file { result ≡ self.now.file }
        ensures regular { IsSome result ↔ IsFile self.now.kind }
    {
        self.file
    }
}

/// The regular files that a desk opened. They stay noted for as long as the desk stands: what was
/// read and shut, as the survey of a picture, may still not be written under another name.
#[derive(Drop)]
pub(crate) struct Opened {
    files: Vec<Identity>,
    written: Vec<Identity>,
}

impl Opened {
    ghost use Rattle.view_ends.specs.Opened.{HasRoom, IsWritten, StaysNoted, WasOpened};

    /// No file was opened.
    pub(crate) fn new(alloc: Global) -> Opened
        ensures { result.files.items ≡ [] }
    {
        Opened {
            files: Vec::new(alloc),
            written: Vec::new(alloc),
        }
    }

    /// Makes room for one more file.
    pub(crate) fn reserve(&mut self) -> Result<(), OutOfMemory>
        ensures files { self.new.files.items ≡ self.old.files.items }
        ensures written { self.new.written.items ≡ self.old.written.items }
        ensures room { OnOk result (HasRoom self.new) }
    {
        self.files.reserve(1)?;
        self.written.reserve(1)?;
        Ok(())
    }

    /// Whether this file was opened.
    pub(crate) fn has(&self, file: Identity) -> bool
        ensures { IsTrue result ↔ WasOpened self.now file }
    {
        self.files.contains(&file)
    }

    /// Whether this file is being written.
    pub(crate) fn is_written(&self, file: Identity) -> bool
        ensures { IsTrue result ↔ IsWritten self.now file }
    {
        self.written.contains(&file)
    }

    /// Notes a file that was opened to read, for which there is room.
    pub(crate) fn note_read(&mut self, file: Identity)
        requires { HasRoom self.old }
        ensures files { self.new.files.items ≡ self.old.files.items ++ file ∷ [] }
        ensures opened { WasOpened self.new file }
        ensures written { self.new.written.items ≡ self.old.written.items }
        ensures noted { StaysNoted self.old self.new }
    {
        let _ = self.files.push(file);
    }

    /// Notes a file that was opened to write, for which there is room.
    pub(crate) fn note_written(&mut self, file: Identity)
        requires { HasRoom self.old }
        ensures files { self.new.files.items ≡ self.old.files.items ++ file ∷ [] }
        ensures written { self.new.written.items ≡ self.old.written.items ++ file ∷ [] }
        ensures opened { WasOpened self.new file }
        ensures is_written { IsWritten self.new file }
        ensures noted { StaysNoted self.old self.new }
    {
        let _ = self.files.push(file);
        let _ = self.written.push(file);
    }

    /// The index of the first note that this file is being written.
    fn index_of(&self, file: Identity) -> Option<usize>
        ensures { MatchOption result (¬ IsWritten self.now file) (λ i. slice_get self.now.written.items i ≡ Some file) }
    {
        self.written.iter().position(|noted| *noted == file)
    }

    /// Notes that this file is written no more, so that it may be read. All others stay as noted.
    pub(crate) fn close(&mut self, file: Identity)
        ensures files { self.new.files.items ≡ self.old.files.items }
        ensures closed { IsWritten self.old file → IsPermutation self.old.written.items (file ∷ self.new.written.items) }
        ensures others { ¬ IsWritten self.old file → self.new.written.items ≡ self.old.written.items }
    {
        if let Some(i) = self.index_of(file) {
            let _ = self.written.remove(i);
        }
    }
}
