use las_survey::{LoadFault, Survey, load};
use std::alloc::Global;
use std::process::Abort;
use view_base::{Bytes, OutOfMemory};
use view_ends::StillSource;

/// Appends pieces, one after another.
pub fn append_all(bytes: &mut Bytes, pieces: &[&[u8]]) -> Result<(), OutOfMemory> {
    for piece in pieces {
        bytes.append(piece)?;
    }
    Ok(())
}

/// Appends a public header block of 375 bytes before so many records of format 0.
fn append_header(bytes: &mut Bytes, records: u64) -> Result<(), OutOfMemory> {
    append_all(
        bytes,
        &[
            b"LASF",
            &[0; 20],
            &[1, 4],
            &[0; 68],
            &375u16.to_le_bytes(),
            &375u32.to_le_bytes(),
            &[0; 5],
            &20u16.to_le_bytes(),
            &[0; 140],
            &records.to_le_bytes(),
            &[0; 120],
        ],
    )
}

/// Appends a record of format 0 at a place, withheld where X is 0.
pub fn append_record(bytes: &mut Bytes, [x, y, z]: [i32; 3]) -> Result<(), OutOfMemory> {
    let withheld = if x == 0 { 0x80 } else { 0 };
    append_all(
        bytes,
        &[
            &x.to_le_bytes(),
            &y.to_le_bytes(),
            &z.to_le_bytes(),
            &[0, 0, 0, withheld, 0, 0, 0, 0],
        ],
    )
}

/// Appends so many records at (0, 0, 5), and then records at these places.
fn append_records(bytes: &mut Bytes, first: u32, others: &[[i32; 3]]) -> Result<(), OutOfMemory> {
    for _ in 0..first {
        append_record(bytes, [0, 0, 5])?;
    }
    for place in others {
        append_record(bytes, *place)?;
    }
    Ok(())
}

/// Appends 5000 records at different places, in no order of space.
fn append_spread(bytes: &mut Bytes) -> Result<(), OutOfMemory> {
    for i in 0..5000i32 {
        append_record(
            bytes,
            [i.wrapping_mul(97) % 5003, i.wrapping_mul(31) % 97, i % 11],
        )?;
    }
    Ok(())
}

/// The file of so many records at (0, 0, 5), and then records at these places.
fn file(alloc: Global, first: u32, others: &[[i32; 3]]) -> Result<Bytes, OutOfMemory> {
    let mut bytes = Bytes::new(alloc);
    let records = u64::from(first).wrapping_add(others.len() as u64);
    append_header(&mut bytes, records)?;
    append_records(&mut bytes, first, others)?;
    Ok(bytes)
}

/// The file of 5000 records at different places.
fn spread_file(alloc: Global) -> Result<Bytes, OutOfMemory> {
    let mut bytes = Bytes::new(alloc);
    append_header(&mut bytes, 5000)?;
    append_spread(&mut bytes)?;
    Ok(bytes)
}

/// The survey of a file's bytes.
pub fn loaded(alloc: Global, bytes: Bytes) -> Result<Survey, LoadFault> {
    load(alloc, &mut StillSource::new(bytes))
}

/// The survey of so many records at (0, 0, 5), and then records at these places.
pub fn survey(rt: &impl Abort, alloc: Global, first: u32, others: &[[i32; 3]]) -> Survey {
    let bytes = file(alloc, first, others).expect(rt, "memory for a file");
    loaded(alloc, bytes).expect(rt, "a survey")
}

/// The survey of 5000 records at different places, in no order of space.
pub fn spread(rt: &impl Abort, alloc: Global) -> Survey {
    let bytes = spread_file(alloc).expect(rt, "memory for a file");
    loaded(alloc, bytes).expect(rt, "a survey")
}
