use crate::comparing::same;
use std::alloc::Global;
use std::test::Fail;
use view_base::{Bytes, OutOfMemory};
use view_ends::{Desk, DeskCall, MemDesk, StillDesk};

/// A file: its name and its bytes.
pub type File<'a> = (&'a str, &'a [u8]);

/// A call on a name that is to fail, and at which place.
pub type Call<'a> = (&'a str, DeskCall, u64);

/// A desk whose files a test puts there and reads.
pub trait Shelf: Desk + Drop {
    /// A desk without files.
    fn empty(alloc: Global) -> Self;

    /// Puts a file on the desk.
    fn put_file(&mut self, name: &str, bytes: Bytes) -> Result<(), OutOfMemory>;

    /// The bytes of a file, and `None` where there is no such file.
    fn file(&self, name: &str) -> Option<&[u8]>;
}

impl Shelf for MemDesk {
    fn empty(alloc: Global) -> MemDesk {
        MemDesk::new(alloc)
    }

    fn put_file(&mut self, name: &str, bytes: Bytes) -> Result<(), OutOfMemory> {
        self.put(name, bytes)
    }

    fn file(&self, name: &str) -> Option<&[u8]> {
        self.bytes_of(name)
    }
}

impl Shelf for StillDesk {
    fn empty(alloc: Global) -> StillDesk {
        StillDesk::new(alloc)
    }

    fn put_file(&mut self, name: &str, bytes: Bytes) -> Result<(), OutOfMemory> {
        self.put(name, bytes)
    }

    fn file(&self, name: &str) -> Option<&[u8]> {
        self.bytes_of(name)
    }
}

/// Puts a file on a desk.
fn put(alloc: Global, desk: &mut impl Shelf, file: File) -> Result<(), Fail> {
    let (name, bytes) = file;
    let mut copy = Bytes::new(alloc);
    copy.append(bytes)?;
    Ok(desk.put_file(name, copy)?)
}

/// Puts files on a desk.
pub fn fill(alloc: Global, desk: &mut impl Shelf, files: &[File]) -> Result<(), Fail> {
    for file in files {
        put(alloc, desk, *file)?;
    }
    Ok(())
}

/// Plans calls that are to fail.
pub fn plan(desk: &mut MemDesk, calls: &[Call]) -> Result<(), Fail> {
    for (name, call, at) in calls {
        desk.fail(name, *call, *at)?;
    }
    Ok(())
}

/// The desk has to hold these files, after what `told` names.
pub fn holds(desk: &impl Shelf, files: &[File], told: &str) -> Result<(), Fail> {
    for (name, bytes) in files {
        same(&desk.file(name), &Some(*bytes), told)?;
    }
    Ok(())
}

/// The desk has to hold these files after a call that was to fail, whose own file has to be unkept
/// where its keeping was to fail.
pub fn holds_after(desk: &MemDesk, call: Call, files: &[File]) -> Result<(), Fail> {
    let (name, kind, _) = call;
    holds(desk, files, name)?;
    let unkept = u64::from(kind == DeskCall::Keep);
    same(&desk.unkept(name), &unkept, name)
}
