ghost use Rattle.std.specs.Prelude.{◌≡◌, ◌+◌, ◌*◌, ◌<◌, ◌≤◌, length, None, IfSome, IfNone, IfOk, OnOk, IfErr, IsOk};
ghost use Rattle.las_vlr.specs.Fault.{IsEvlrFault};
ghost use Rattle.las_vlr.specs.Places.{evlr_places};
ghost use Rattle.view_meaning.specs.Layout.{evlr_fault};
ghost use Rattle.view_meaning.specs.Survey.{u64_at};

use crate::place::{VlrList, VlrPlace};
use byteorder::{ByteOrder, LittleEndian};
use std::alloc::Global;
use view_base::OutOfMemory;

/// The bytes of a record's header (LAS 1.4 R15, extended variable length records).
const HEADER: u64 = 60;

/// Why the extended variable length records have no places.
#[derive(Clone, Copy, Debug, PartialEq, Eq)]
pub enum EvlrFault {
    /// Record `k`, from 0, is the first that does not fit. It begins at byte `at`.
    Evlr { k: u32, at: u64 },
    /// Want of memory.
    Memory,
}

impl From<OutOfMemory> for EvlrFault {
    ghost use Rattle.std.specs.Prelude.{◌≡◌};
    ghost use Rattle.las_vlr.specs.declared.evlrs.EvlrFault.TheVariants.{Memory};

    ghost from_gives = { λ _ fault. fault ≡ Memory };

    fn from(_: OutOfMemory) -> Self {
        EvlrFault::Memory
    }
}

/// The places of the `count` extended variable length records of a file, the first at byte
/// `first`, each other where the one before ends. Each is to begin at `points_end`, the end of the
/// points, or after, and to end within the file; the first that does not is the fault. Room is
/// made only for records that fit, and none for a `count` of 0.
pub fn walk_evlrs(
    alloc: Global,
    bytes: &[u8],
    first: u64,
    points_end: u64,
    count: u32,
) -> Result<VlrList, EvlrFault>
    requires { points_end ≤ length bytes.now }
    ensures places { IfOk result (λ list. list.items ≡ evlr_places bytes.now first count) }
    ensures fitting { OnOk result (evlr_fault bytes.now first points_end count ≡ None) }
    ensures fault { IfErr result (λ fault. IsEvlrFault fault (evlr_fault bytes.now first points_end count)) }
    ensures none { count ≡ 0 → IsOk result }
    ensures few { IfOk result (λ list. 60 * length list.items ≤ length bytes.now) }
{
    let mut places = VlrList::new(alloc);
    let mut at = first;
    for k in 0..count {
        match evlr_length(bytes, at, points_end) {
            None => return Err(EvlrFault::Evlr { k, at }),
            Some(length) => {
                places.push(VlrPlace { at, length })?;
                at += HEADER + length;
            }
        }
    }
    Ok(places)
}

/// The length after its header of the extended variable length record at a place, where it begins
/// at `points_end` or after and ends within the file.
#[tactic(auto, using(view_meaning::proofs::Reading::numbers))]
fn evlr_length(bytes: &[u8], at: u64, points_end: u64) -> Option<u64>
    ensures length { IfSome result (λ size. size ≡ u64_at bytes.now (at + 20)) }
    ensures after { IfSome result (λ _. points_end ≤ at) }
    ensures fits { IfSome result (λ size. at + 60 + size ≤ length bytes.now) }
    ensures beyond { IfNone result (points_end ≤ at → length bytes.now < at + 60 + u64_at bytes.now (at + 20)) }
{
    if at < points_end {
        return None;
    }
    let room = (bytes.len() as u64).checked_sub(at)?.checked_sub(HEADER)?;
    let length = LittleEndian::read_u64(&bytes[at as usize + 20..]);
    if length <= room { Some(length) } else { None }
}
