//! Surveys of a few records, made byte by byte.

use las_survey::{Survey, load};
use std::alloc::Global;
use std::test::Fail;
use view_base::{Bytes, OutOfMemory};
use view_ends::StillSource;

/// A record of format 0: X, Y and Z, and its class byte.
pub(crate) type Place = ([i32; 3], u8);

/// Appends a header of 375 bytes before so many records of this format and length.
pub(crate) fn append_header(
    bytes: &mut Bytes,
    format: u8,
    length: u8,
    records: usize,
) -> Result<(), OutOfMemory> {
    let parts: [&[u8]; 10] = [
        b"LASF",
        &[0; 20],
        &[1, 4],
        &[0; 68],
        &375u16.to_le_bytes(),
        &375u32.to_le_bytes(),
        &[0, 0, 0, 0, format, length, 0],
        &[0; 140],
        &(records as u64).to_le_bytes(),
        &[0; 120],
    ];
    for part in parts {
        bytes.append(part)?;
    }
    Ok(())
}

/// Appends a record of format 0.
pub(crate) fn append_record(
    bytes: &mut Bytes,
    ([x, y, z], class): Place,
) -> Result<(), OutOfMemory> {
    bytes.append(&x.to_le_bytes())?;
    bytes.append(&y.to_le_bytes())?;
    bytes.append(&z.to_le_bytes())?;
    bytes.append(&[0, 0, 0, class, 0, 0, 0, 0])
}

/// The survey that these bytes are.
pub(crate) fn loaded(alloc: Global, bytes: Bytes) -> Result<Survey, Fail> {
    Ok(load(alloc, &mut StillSource::new(bytes))?)
}

/// Appends these records behind their header.
fn append_all(bytes: &mut Bytes, places: &[Place]) -> Result<(), OutOfMemory> {
    append_header(bytes, 0, 20, places.len())?;
    for place in places {
        append_record(bytes, *place)?;
    }
    Ok(())
}

/// A survey of these records.
pub(crate) fn survey_of(alloc: Global, places: &[Place]) -> Result<Survey, Fail> {
    let mut bytes = Bytes::new(alloc);
    append_all(&mut bytes, places)?;
    loaded(alloc, bytes)
}
