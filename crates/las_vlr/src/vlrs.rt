ghost use Rattle.std.specs.Prelude.{◌≡◌, ◌+◌, ◌*◌, ◌<◌, ◌≤◌, length, None, IfSome, IfNone, IfOk, OnOk, IfErr, IsOk};
ghost use Rattle.las_vlr.specs.Fault.{IsVlrFault};
ghost use Rattle.las_vlr.specs.Places.{vlr_places};
ghost use Rattle.view_meaning.specs.Layout.{vlr_fault};
ghost use Rattle.view_meaning.specs.Survey.{u16_at};

use crate::place::{VlrList, VlrPlace};
use byteorder::{ByteOrder, LittleEndian};
use std::alloc::Global;
use view_base::OutOfMemory;

/// The bytes of a record's header (LAS 1.4 R15, variable length records).
const HEADER: u64 = 54;

/// Why the variable length records have no places.
#[derive(Clone, Copy, Debug, PartialEq, Eq)]
pub enum VlrFault {
    /// Record `k`, from 0, is the first that does not fit. It begins at byte `at`.
    Vlr { k: u32, at: u64 },
    /// Want of memory.
    Memory,
}

impl From<OutOfMemory> for VlrFault {
    ghost use Rattle.std.specs.Prelude.{◌≡◌};
    ghost use Rattle.las_vlr.specs.declared.vlrs.VlrFault.TheVariants.{Memory};

    ghost from_gives = { λ _ fault. fault ≡ Memory };

    fn from(_: OutOfMemory) -> Self {
        VlrFault::Memory
    }
}

/// The places of the `count` variable length records of a file, the first at byte `first`, each
/// other where the one before ends. Each is to end at `end`, the offset to point data, or before,
/// and within the file; the first that does not is the fault. Room is made only for records that
/// fit, and none for a `count` of 0.
pub fn walk_vlrs(
    alloc: Global,
    bytes: &[u8],
    first: u64,
    end: u64,
    count: u32,
) -> Result<VlrList, VlrFault>
    ensures places { IfOk result (λ list. list.items ≡ vlr_places bytes.now first count) }
    ensures fitting { OnOk result (vlr_fault bytes.now first end count ≡ None) }
    ensures fault { IfErr result (λ fault. IsVlrFault fault (vlr_fault bytes.now first end count)) }
    ensures none { count ≡ 0 → IsOk result }
    ensures few { IfOk result (λ list. 54 * length list.items ≤ length bytes.now) }
{
    let end = end.min(bytes.len() as u64);
    let mut places = VlrList::new(alloc);
    let mut at = first;
    for k in 0..count {
        match vlr_length(bytes, at, end) {
            None => return Err(VlrFault::Vlr { k, at }),
            Some(length) => {
                places.push(VlrPlace { at, length })?;
                at += HEADER + length;
            }
        }
    }
    Ok(places)
}

/// The length after its header of the variable length record at a place, where it ends at `end`
/// or before.
#[tactic(auto, using(view_meaning::proofs::Reading::numbers))]
fn vlr_length(bytes: &[u8], at: u64, end: u64) -> Option<u64>
    requires { end ≤ length bytes.now }
    ensures length { IfSome result (λ size. size ≡ u16_at bytes.now (at + 20)) }
    ensures fits { IfSome result (λ size. at + 54 + size ≤ end) }
    ensures beyond { IfNone result (end < at + 54 + u16_at bytes.now (at + 20)) }
{
    let room = end.checked_sub(at)?.checked_sub(HEADER)?;
    let length = u64::from(LittleEndian::read_u16(&bytes[at as usize + 20..]));
    if length <= room { Some(length) } else { None }
}
