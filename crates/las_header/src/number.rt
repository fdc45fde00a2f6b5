ghost use Rattle.std.specs.Prelude.{◌≡◌, ◌+◌, ◌≤◌, length};
ghost use Rattle.view_meaning.specs.Survey.{u16_at, u32_at, u64_at};

use byteorder::{ByteOrder, LittleEndian};

/// The unsigned number in the two bytes from a place on.
#[tactic(auto, using(view_meaning::proofs::Reading::numbers))]
pub(crate) fn u16_in(bytes: &[u8], at: usize) -> u16
    requires { at + 2 ≤ length bytes.now }
    ensures { result ≡ u16_at bytes.now at }
{
    LittleEndian::read_u16(&bytes[at..])
}

/// The unsigned number in the four bytes from a place on.
#[tactic(auto, using(view_meaning::proofs::Reading::numbers))]
pub(crate) fn u32_in(bytes: &[u8], at: usize) -> u32
    requires { at + 4 ≤ length bytes.now }
    ensures { result ≡ u32_at bytes.now at }
{
    LittleEndian::read_u32(&bytes[at..])
}

/// The unsigned number in the eight bytes from a place on.
#[tactic(auto, using(view_meaning::proofs::Reading::numbers))]
pub(crate) fn u64_in(bytes: &[u8], at: usize) -> u64
    requires { at + 8 ≤ length bytes.now }
    ensures { result ≡ u64_at bytes.now at }
{
    LittleEndian::read_u64(&bytes[at..])
}
