use crate::surveys::append_all;
use std::alloc::Global;
use view_base::{Bytes, OutOfMemory};

/// The 624 bytes of a file with the parts that users' files have, its contents placeholders: the
/// WKT bit and a variable length record for the WKT text, three records of format 7 with four extra
/// bytes each, one extended variable length record, and three bytes after it.
pub fn parts(alloc: Global) -> Result<Bytes, OutOfMemory> {
    let mut bytes = Bytes::new(alloc);
    append_header(&mut bytes)?;
    append_vlr(&mut bytes)?;
    append_records(&mut bytes)?;
    append_evlr(&mut bytes)?;
    bytes.append(&[0x44; 3])?;
    Ok(bytes)
}

/// Appends the header of 375 bytes.
fn append_header(bytes: &mut Bytes) -> Result<(), OutOfMemory> {
    append_all(
        bytes,
        &[
            b"LASF",
            &[0, 0, 16],
            &[0; 17],
            &[1, 4],
            &[0; 68],
            &375u16.to_le_bytes(),
            &437u32.to_le_bytes(),
            &1u32.to_le_bytes(),
            &[7, 40, 0],
            &[0; 128],
            &557u64.to_le_bytes(),
            &1u32.to_le_bytes(),
            &3u64.to_le_bytes(),
            &[0; 120],
        ],
    )
}

/// Appends a variable length record of 62 bytes.
fn append_vlr(bytes: &mut Bytes) -> Result<(), OutOfMemory> {
    append_all(
        bytes,
        &[
            &[0, 0],
            b"LASF_Projection",
            &[0],
            &2112u16.to_le_bytes(),
            &8u16.to_le_bytes(),
            &[0; 32],
            &[0x11; 8],
        ],
    )
}

/// Appends the three records of 40 bytes.
fn append_records(bytes: &mut Bytes) -> Result<(), OutOfMemory> {
    for [x, y, z, class] in [[0, 0, 100, 1], [50, 0, 90, 1], [50, 50, 80, 2]] {
        let place = [x, 0, 0, 0, y, 0, 0, 0, z, 0, 0, 0, 0, 0, 0, 0, class];
        append_all(bytes, &[&place, &[0; 19], &[0x22; 4]])?;
    }
    Ok(())
}

/// Appends an extended variable length record of 64 bytes.
fn append_evlr(bytes: &mut Bytes) -> Result<(), OutOfMemory> {
    append_all(
        bytes,
        &[
            &[0; 18],
            &1u16.to_le_bytes(),
            &4u64.to_le_bytes(),
            &[0; 32],
            &[0x33; 4],
        ],
    )
}
