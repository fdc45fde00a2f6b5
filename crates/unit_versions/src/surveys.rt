use las_survey::{Survey, load};
use std::alloc::Global;
use std::test::Fail;
use view_base::{Bytes, OutOfMemory};
use view_ends::StillSource;

/// Appends a file of LAS 1.4 with one record of format 0, at (0, 0, 5) in class 2.
fn append_survey(bytes: &mut Bytes) -> Result<(), OutOfMemory> {
    bytes.append(b"LASF")?;
    bytes.append(&[0; 20])?;
    bytes.append(&[1, 4])?;
    bytes.append(&[0; 68])?;
    bytes.append(&375u16.to_le_bytes())?;
    bytes.append(&375u32.to_le_bytes())?;
    bytes.append(&[0; 5])?;
    bytes.append(&20u16.to_le_bytes())?;
    bytes.append(&[0; 140])?;
    bytes.append(&1u64.to_le_bytes())?;
    bytes.append(&[0; 120])?;
    bytes.append(&[0, 0, 0, 0, 0, 0, 0, 0, 5, 0, 0, 0, 0, 0, 0, 2, 0, 0, 0, 0])
}

/// The survey of that file.
pub(crate) fn survey(alloc: Global) -> Result<Survey, Fail> {
    let mut bytes = Bytes::new(alloc);
    append_survey(&mut bytes)?;
    Ok(load(alloc, &mut StillSource::new(bytes))?)
}
