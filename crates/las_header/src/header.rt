ghost use Rattle.std.specs.Prelude.{◌≡◌, ◌==◌, ◌≤◌, length};
ghost use Rattle.view_meaning.specs.Survey.{minor_of, record_count, evlrs_at, evlr_count};

use crate::number::{u16_in, u32_in, u64_in};

/// The fields of the public header block that are read (LAS 1.2, 1.3 and 1.4 R15, public header
/// block). Sizes and places are in bytes.
#[derive(Clone, Copy, Debug, PartialEq, Eq)]
pub struct Header {
    /// The version's minor number.
    pub minor: u8,
    /// Header size.
    pub size: u16,
    /// Offset to point data.
    pub points_at: u32,
    /// Number of variable length records.
    pub vlrs: u32,
    /// Point data record format.
    pub format: u8,
    /// Point data record length.
    pub length: u16,
    /// Number of point records: in LAS 1.4 the 64 bits at 247 where they are not 0, else the 32
    /// bits at 107.
    pub records: u64,
    /// Start of first extended variable length record, 0 in LAS 1.2 and 1.3.
    pub evlrs_at: u64,
    /// Number of extended variable length records, 0 in LAS 1.2 and 1.3.
    pub evlrs: u32,
}

impl Header {
    ghost use Rattle.las_header.specs.Header.{IsHeaderOf};

    /// The fields in the public header block of a file.
    #[tactic(auto, unfolding(view_meaning::specs::Survey::u8_at))]
    pub(crate) fn of(bytes: &[u8]) -> Header
        requires least { 227 ≤ length bytes.now }
        requires of_1_4 { minor_of bytes.now ≡ 4 → 375 ≤ length bytes.now }
        ensures { IsHeaderOf bytes.now result }
    {
        Header {
            minor: bytes[25],
            size: u16_in(bytes, 94),
            points_at: u32_in(bytes, 96),
            vlrs: u32_in(bytes, 100),
            format: bytes[104],
            length: u16_in(bytes, 105),
            records: records_in(bytes),
            evlrs_at: evlrs_at_in(bytes),
            evlrs: evlrs_in(bytes),
        }
    }
}

/// Whether a file's version is 1.4, where its major number is 1.
#[tactic(auto, unfolding(view_meaning::specs::Survey::u8_at))]
fn is_1_4(bytes: &[u8]) -> bool
    requires { 227 ≤ length bytes.now }
    ensures { result ≡ (minor_of bytes.now == 4) }
{
    bytes[25] == 4
}

/// The number of point records.
#[tactic(auto, unfolding(view_meaning::specs::Survey::record_count))]
fn records_in(bytes: &[u8]) -> u64
    requires least { 227 ≤ length bytes.now }
    requires of_1_4 { minor_of bytes.now ≡ 4 → 375 ≤ length bytes.now }
    ensures { result ≡ record_count bytes.now }
{
    let legacy = u64::from(u32_in(bytes, 107));
    if !is_1_4(bytes) {
        return legacy;
    }
    match u64_in(bytes, 247) {
        0 => legacy,
        records => records,
    }
}

/// The start of the first extended variable length record.
#[tactic(auto, unfolding(view_meaning::specs::Survey::evlrs_at))]
fn evlrs_at_in(bytes: &[u8]) -> u64
    requires least { 227 ≤ length bytes.now }
    requires of_1_4 { minor_of bytes.now ≡ 4 → 375 ≤ length bytes.now }
    ensures { result ≡ evlrs_at bytes.now }
{
    if is_1_4(bytes) { u64_in(bytes, 235) } else { 0 }
}

/// The number of extended variable length records.
#[tactic(auto, unfolding(view_meaning::specs::Survey::evlr_count))]
fn evlrs_in(bytes: &[u8]) -> u32
    requires least { 227 ≤ length bytes.now }
    requires of_1_4 { minor_of bytes.now ≡ 4 → 375 ≤ length bytes.now }
    ensures { result ≡ evlr_count bytes.now }
{
    if is_1_4(bytes) { u32_in(bytes, 243) } else { 0 }
}
