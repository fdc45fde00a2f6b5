use std::alloc::Global;
use view_base::{Bytes, OutOfMemory};

/// The fields of a public header block that are read.
#[derive(Clone, Copy, Drop)]
pub struct Fields {
    pub signature: [u8; 4],
    pub major: u8,
    pub minor: u8,
    pub size: u16,
    pub points_at: u32,
    pub vlrs: u32,
    pub format: u8,
    pub length: u16,
    pub count: u32,
    pub evlrs_at: u64,
    pub evlrs: u32,
    pub records: u64,
}

/// A header of LAS 1.4, with no points of format 0 and no variable length records.
pub const EMPTY: Fields = Fields {
    signature: *b"LASF",
    major: 1,
    minor: 4,
    size: 375,
    points_at: 375,
    vlrs: 0,
    format: 0,
    length: 20,
    count: 0,
    evlrs_at: 0,
    evlrs: 0,
    records: 0,
};

/// A header of LAS 1.3 of the same kind.
pub const EMPTY_1_3: Fields = Fields {
    minor: 3,
    size: 235,
    points_at: 235,
    ..EMPTY
};

/// A header of LAS 1.2 of the same kind.
pub const EMPTY_1_2: Fields = Fields {
    minor: 2,
    size: 227,
    points_at: 227,
    ..EMPTY
};

/// Appends pieces one after the other.
pub fn append_all(bytes: &mut Bytes, pieces: &[&[u8]]) -> Result<(), OutOfMemory> {
    for piece in pieces {
        bytes.append(piece)?;
    }
    Ok(())
}

/// Appends a header: 375 bytes for minor version 4, 235 for 3, and 227 for all others. Its bytes
/// that are not read are 0.
pub fn append_header(bytes: &mut Bytes, fields: &Fields) -> Result<(), OutOfMemory> {
    append_start(bytes, fields)?;
    match fields.minor {
        4 => append_back(bytes, fields),
        3 => bytes.append(&[0; 124]),
        _ => bytes.append(&[0; 116]),
    }
}

/// Appends the first 111 bytes of a header, which each version has.
fn append_start(bytes: &mut Bytes, fields: &Fields) -> Result<(), OutOfMemory> {
    append_all(
        bytes,
        &[
            &fields.signature,
            &[0; 20],
            &[fields.major, fields.minor],
            &[0; 68],
            &fields.size.to_le_bytes(),
            &fields.points_at.to_le_bytes(),
            &fields.vlrs.to_le_bytes(),
            &[fields.format],
            &fields.length.to_le_bytes(),
            &fields.count.to_le_bytes(),
        ],
    )
}

/// Appends the bytes of a header of LAS 1.4 after its first 111.
fn append_back(bytes: &mut Bytes, fields: &Fields) -> Result<(), OutOfMemory> {
    append_all(
        bytes,
        &[
            &[0; 124],
            &fields.evlrs_at.to_le_bytes(),
            &fields.evlrs.to_le_bytes(),
            &fields.records.to_le_bytes(),
            &[0; 120],
        ],
    )
}

/// Two records of format 0: at 0, 0, 5 of class 2, and at 1, 0, 9 of class 6. After a header of LAS
/// 1.2 the bytes at 247 are X and Y of the second, which would be a number of records of 1, and
/// after one of LAS 1.3 those at 243 are Z of the first, which would be a number of extended
/// records of 5.
pub const RECORDS: [u8; 40] = [
    0, 0, 0, 0, 0, 0, 0, 0, 5, 0, 0, 0, 0, 0, 0, 2, 0, 0, 0, 0, 1, 0, 0, 0, 0, 0, 0, 0, 9, 0, 0, 0,
    0, 0, 0, 6, 0, 0, 0, 0,
];

/// Appends a variable length record with `length` bytes after its header.
pub fn append_vlr(bytes: &mut Bytes, length: u8) -> Result<(), OutOfMemory> {
    append_all(bytes, &[&[0; 20], &[length, 0], &[0; 32]])?;
    for _ in 0..length {
        bytes.push(0x11)?;
    }
    Ok(())
}

/// Appends an extended variable length record with 4 bytes after its header.
pub fn append_evlr(bytes: &mut Bytes) -> Result<(), OutOfMemory> {
    append_all(
        bytes,
        &[&[0; 20], &4u64.to_le_bytes(), &[0; 32], &[0x33; 4]],
    )
}
