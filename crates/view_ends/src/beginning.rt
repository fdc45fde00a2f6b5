ghost use Rattle.std.specs.Prelude.{IsTrue, ◌<◌};
ghost use Rattle.std.specs.Fs.{metadata_len};

use crate::opened::{Identity, Mark};
use std::fs::{Metadata, OpenFile};
use std::io::{Error, ErrorKind, Read};
use std::rt::Files;
use std::{fs, io};

/// How a LAS file begins.
const SIGNATURE: [u8; 4] = *b"LASF";

/// Whether a regular file may be a survey: it begins as one, or it can't be read by this name. A
/// file of fewer than four bytes is none.
pub(crate) fn may_be_survey<R: Files>(rt: &R, name: &str, file: Identity, about: &Metadata) -> bool
    ensures { IsTrue result → ¬ (metadata_len about.now < 4) }
{
    if about.len() < 4 {
        return false;
    }
    match beginning(rt, name, file) {
        Ok(bytes) => bytes == SIGNATURE,
        Err(_) => true,
    }
}

/// The first four bytes of the file of this name, if that is this regular file.
fn beginning<R: Files>(rt: &R, name: &str, file: Identity) -> io::Result<[u8; 4]> {
    let mut opened = fs::open(rt, name)?;
    if Mark::of(&opened.metadata()?).file() != Some(file) {
        return Err(Error::from(ErrorKind::NotFound));
    }
    let mut bytes = [0; 4];
    opened.read_exact(&mut bytes)?;
    Ok(bytes)
}
