ghost use Rattle.std.specs.Prelude.{◌≡◌, ◌≤◌, ◌+◌, ◌*◌, ◌++◌, ◌^◌, ◌%◌, ◌∷◌, [], codes, IfOk};
ghost use Rattle.std.specs.Int.{to_le_bytes, w16, w32, w64};
ghost use Rattle.std.specs.List.{range_with_len, flat_map};
ghost use Rattle.survey_make.specs.declared.draws.TheConstants.{MULTIPLIER, INCREMENT};
ghost use Rattle.survey_make.specs.Made.{draw, made, made_header, made_record, state, zeros};
ghost use Rattle.view_meaning.specs.Layout.{least_length, IsLaid};

use crate::draws::Draws;
use crate::record::Numbers;
use las_header::least_length;
use std::alloc::Global;
use view_base::{Bytes, OutOfMemory};

/// The bytes of the public header block.
const HEADER: u16 = 375;

/// The file of a survey of LAS 1.4 that is made of a number: so many records of a point data record
/// format, of its least length, whose X and Y are below 65536, Z below 4096 and classes below 32.
/// The numbers are drawn by the generator modulo 2^64 of MMIX (Knuth). A refusal is want of memory.
pub fn make(alloc: Global, start: u64, records: u32, format: u8) -> Result<Bytes, OutOfMemory>
    requires format { format ≤ 10 }
    requires few { records ≤ 2 ^ 23 }
    ensures bytes { IfOk result (λ bytes. bytes.items ≡ made start records format) }
    ensures laid { IsLaid (made start records format) }
    ensures factor { MULTIPLIER ≡ 6364136223846793005 }
    ensures addend { INCREMENT ≡ 1442695040888963407 }
{
    let length = usize::from(least_length(format));
    let mut bytes = Bytes::new(alloc);
    bytes.reserve(usize::from(HEADER) + records as usize * length)?;
    append_header(&mut bytes, format, records);
    append_records(&mut bytes, start, format, records);
    Ok(bytes)
}

/// Appends the public header block. It fits in the room.
fn append_header(bytes: &mut Bytes, format: u8, records: u32)
    requires format { format ≤ 10 }
    requires room { 375 ≤ bytes.old.spare }
    ensures appended { bytes.new.items ≡ bytes.old.items ++ made_header format records }
    ensures spare { bytes.old.spare ≤ bytes.new.spare + 375 }
{
    append_version(bytes);
    append_sizes(bytes, format);
    append_counts(bytes, format, records);
}

/// Appends the signature and the version, bytes 0 to 93.
fn append_version(bytes: &mut Bytes)
    requires { 94 ≤ bytes.old.spare }
    ensures appended { bytes.new.items ≡ bytes.old.items ++ (codes "LASF" ++ zeros 20 ++ (1 ∷ 4 ∷ []) ++ zeros 68) }
    ensures spare { bytes.old.spare ≤ bytes.new.spare + 94 }
{
    bytes.append_within(b"LASF");
    bytes.extend_by(20, 0);
    bytes.append_within(&[1, 4]);
    bytes.extend_by(68, 0);
}

/// Appends the header size, the offset to the points and the format, bytes 94 to 104.
fn append_sizes(bytes: &mut Bytes, format: u8)
    requires { 11 ≤ bytes.old.spare }
    ensures appended { bytes.new.items ≡ bytes.old.items ++ (to_le_bytes w16 375 ++ to_le_bytes w32 375 ++ zeros 4 ++ (format ∷ [])) }
    ensures spare { bytes.old.spare ≤ bytes.new.spare + 11 }
{
    bytes.append_within(&HEADER.to_le_bytes());
    bytes.append_within(&u32::from(HEADER).to_le_bytes());
    bytes.extend_by(4, 0);
    bytes.push_within(format);
}

/// Appends the record length and the number of records, bytes 105 to 374.
fn append_counts(bytes: &mut Bytes, format: u8, records: u32)
    requires format { format ≤ 10 }
    requires room { 270 ≤ bytes.old.spare }
    ensures appended { bytes.new.items ≡ bytes.old.items ++ (to_le_bytes w16 (least_length format) ++ zeros 140 ++ to_le_bytes w64 records ++ zeros 120) }
    ensures spare { bytes.old.spare ≤ bytes.new.spare + 270 }
{
    bytes.append_within(&least_length(format).to_le_bytes());
    bytes.extend_by(140, 0);
    bytes.append_within(&u64::from(records).to_le_bytes());
    bytes.extend_by(120, 0);
}

/// Appends the records. They fit in the room.
fn append_records(bytes: &mut Bytes, start: u64, format: u8, records: u32)
    requires format { format ≤ 10 }
    requires room { records * least_length format ≤ bytes.old.spare }
    ensures appended { bytes.new.items ≡ bytes.old.items ++ flat_map (made_record start format) (range_with_len 0 records) }
{
    let mut draws = Draws { state: start };
    for _ in 0..records {
        drawn(&mut draws).append(format, bytes);
    }
}

/// The numbers of the next record, of five draws.
fn drawn(draws: &mut Draws) -> Numbers
    ensures state { draws.new.state ≡ state draws.old.state 5 }
    ensures x { result.x ≡ draw draws.old.state 0 % 65536 }
    ensures y { result.y ≡ draw draws.old.state 1 % 65536 }
    ensures z { result.z ≡ draw draws.old.state 2 % 4096 }
    ensures intensity { result.intensity ≡ draw draws.old.state 3 % 65536 }
    ensures class { result.class ≡ draw draws.old.state 4 % 32 }
{
    Numbers {
        x: (draws.draw() % 65536) as u16,
        y: (draws.draw() % 65536) as u16,
        z: (draws.draw() % 4096) as u16,
        intensity: (draws.draw() % 65536) as u16,
        class: (draws.draw() % 32) as u8,
    }
}
