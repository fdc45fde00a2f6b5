ghost use Rattle.std.specs.Prelude.{◌≡◌, ◌+◌, ◌≤◌, ◌++◌, [], length, List, ℕ, IfOk};
ghost use Rattle.sessions.specs.Hearing.{IsPending};

use std::alloc::Global;
use view_base::{Bytes, OutOfMemory};

/// The most bytes of a line, its CR counted and its LF not.
pub(crate) const LINE: usize = 4096;

/// The line that is being read: its bytes where they are few enough, else that they are too many.
#[derive(Drop)]
pub(crate) struct Pending {
    pub(crate) bytes: Bytes,
    pub(crate) long: bool,
}

impl Pending {
    /// An empty line, with room for the longest.
    pub(crate) fn new(alloc: Global) -> Result<Pending, OutOfMemory>
        ensures { IfOk result (λ pending. IsPending pending []) }
    {
        let mut bytes = Bytes::new(alloc);
        bytes.reserve(LINE)?;
        Ok(Pending { bytes, long: false })
    }

    /// Adds a part of the line. It takes no memory.
    pub(crate) fn add(&mut self, part: &[u8])
        requires { (line : List ℕ) × IsPending self.old line }
        ensures { (line : List ℕ) → IsPending self.old line → IsPending self.new (line ++ part.now) }
    {
        if self.long || part.len() > LINE - self.bytes.len() {
            self.long = true;
        } else {
            self.bytes.append_within(part);
        }
    }

    /// Begins the next line.
    pub(crate) fn clear(&mut self)
        requires { (line : List ℕ) × IsPending self.old line }
        ensures { IsPending self.new [] }
    {
        self.bytes.cut(0);
        self.long = false;
    }
}
