use std::alloc::Global;
use view_base::{Bytes, OutOfMemory};

/// A record of a survey: X, Y, Z and the class byte.
pub type Record = (i32, i32, i32, u8);

/// The record at (0, 0, 5) in class 2.
pub const ONE: [Record; 1] = [(0, 0, 5, 2)];

/// The bytes of a LAS 1.4 survey of format 0 with these records: a header of 375 bytes, then 20
/// bytes for each record.
pub fn plain(alloc: Global, records: &[Record]) -> Result<Bytes, OutOfMemory> {
    plain_of(alloc, 0, 20, records)
}

/// The bytes of a LAS 1.4 survey of a point data record format with records of this length in
/// bytes: a header of 375 bytes, then the records. Every byte that is not told is 0.
pub fn plain_of(
    alloc: Global,
    format: u8,
    length: u16,
    records: &[Record],
) -> Result<Bytes, OutOfMemory> {
    let mut bytes = Bytes::new(alloc);
    append_header(&mut bytes, 375, 0, format, length, records.len())?;
    append_records(&mut bytes, format, length, records)?;
    Ok(bytes)
}

/// The 435 bytes of a survey without points and with one variable length record of 55 bytes, after
/// which five bytes stand before the place of the points.
pub fn gapped(alloc: Global) -> Result<Bytes, OutOfMemory> {
    let mut bytes = Bytes::new(alloc);
    append_header(&mut bytes, 435, 1, 0, 20, 0)?;
    append_all(&mut bytes, &[&[0; 20], &1u16.to_le_bytes(), &[0; 38]])?;
    Ok(bytes)
}

/// Appends pieces, one after another.
pub fn append_all(bytes: &mut Bytes, pieces: &[&[u8]]) -> Result<(), OutOfMemory> {
    for piece in pieces {
        bytes.append(piece)?;
    }
    Ok(())
}

/// Appends a public header block of 375 bytes.
pub fn append_header(
    bytes: &mut Bytes,
    points_at: u32,
    vlrs: u32,
    format: u8,
    length: u16,
    records: usize,
) -> Result<(), OutOfMemory> {
    append_all(
        bytes,
        &[
            b"LASF",
            &[0; 20],
            &[1, 4],
            &[0; 68],
            &375u16.to_le_bytes(),
            &points_at.to_le_bytes(),
            &vlrs.to_le_bytes(),
            &[format],
            &length.to_le_bytes(),
            &[0; 140],
            &(records as u64).to_le_bytes(),
            &[0; 120],
        ],
    )
}

/// Appends records.
pub fn append_records(
    bytes: &mut Bytes,
    format: u8,
    length: u16,
    records: &[Record],
) -> Result<(), OutOfMemory> {
    for record in records {
        append_record(bytes, format, length, *record)?;
    }
    Ok(())
}

/// Appends one record, its class byte at place 15 in the formats 0 to 5 and at 16 in the others.
fn append_record(
    bytes: &mut Bytes,
    format: u8,
    length: u16,
    record: Record,
) -> Result<(), OutOfMemory> {
    let (x, y, z, class) = record;
    append_all(
        bytes,
        &[&x.to_le_bytes(), &y.to_le_bytes(), &z.to_le_bytes()],
    )?;
    let class_at = if format <= 5 { 15 } else { 16 };
    for at in 12..length {
        bytes.append(&[if at == class_at { class } else { 0 }])?;
    }
    Ok(())
}

/// These bytes, with another one at this place.
pub fn patched(alloc: Global, bytes: &[u8], at: usize, byte: u8) -> Result<Bytes, OutOfMemory> {
    let mut patched = Bytes::new(alloc);
    let front = bytes.get(..at).unwrap_or(&[]);
    let end = bytes.get(at.saturating_add(1)..).unwrap_or(&[]);
    append_all(&mut patched, &[front, &[byte], end])?;
    Ok(patched)
}
