ghost use Rattle.std.specs.Prelude.{◌≡◌, ◌≤◌, length, None, Some, IfOk, OnOk, IfErr};
ghost use Rattle.las_header.specs.Header.{IsHeaderOf};
ghost use Rattle.view_base.specs.declared.fault.SurveyFault.TheVariants as survey;
ghost use Rattle.view_meaning.specs.Layout as layout;

use crate::header::Header;
use view_base::HeaderFault;

/// The fewest bytes of a public header block: those of LAS 1.2.
const LEAST_BLOCK: u64 = 227;

/// The bytes of the public header block of LAS 1.2, 1.3 and 1.4, by the version's minor number.
#[tactic(auto, unfolding(view_meaning::specs::Layout::block_size))]
fn block_size(minor: u8) -> u16
    ensures size { result ≡ layout.block_size minor }
    ensures of_1_4 { minor ≡ 4 → result ≡ 375 }
{
    match minor {
        2 => 227,
        3 => 235,
        _ => 375,
    }
}

/// The least point data record length of a format, in bytes (LAS 1.4 R15, point data record
/// formats 0 to 10).
pub fn least_length(format: u8) -> u16
    requires { format ≤ 10 }
    ensures { result ≡ layout.least_length format }
{
    match format {
        0 => 20,
        1 => 28,
        2 => 26,
        3 => 34,
        4 => 57,
        5 => 63,
        6 => 30,
        7 => 36,
        8 => 38,
        9 => 59,
        _ => 67,
    }
}

/// The header's fields of a file, given all its bytes, or the first condition on the header that
/// they do not meet: the bytes of the least block, the signature, the version, the bytes of the
/// version's block, the header size, the format byte (compressed, then unknown), the record
/// length, the offset to point data. It takes no memory.
#[tactic(auto, unfolding(view_meaning::specs::Layout::header_faults, view_meaning::specs::Survey::u8_at))]
pub fn read_header(bytes: &[u8]) -> Result<Header, HeaderFault>
    ensures fields { IfOk result (λ header. IsHeaderOf bytes.now header) }
    ensures met { OnOk result (layout.first_fault (layout.header_faults bytes.now) ≡ None) }
    ensures fault { IfErr result (λ fault. layout.first_fault (layout.header_faults bytes.now) ≡ Some (survey.Header fault)) }
{
    let have = bytes.len() as u64;
    if have < LEAST_BLOCK {
        return Err(HeaderFault::TooShort { have });
    }
    if !bytes.starts_with(b"LASF") {
        return Err(HeaderFault::Signature);
    }
    let (major, minor) = (bytes[24], bytes[25]);
    if major != 1 || minor < 2 || minor > 4 {
        return Err(HeaderFault::Version { major, minor });
    }
    let block = block_size(minor);
    if have < u64::from(block) {
        return Err(HeaderFault::TooShort { have });
    }
    let header = Header::of(bytes);
    if header.size < block {
        return Err(HeaderFault::HeaderSize { size: header.size });
    }
    let byte = header.format;
    if byte >= 128 {
        return Err(HeaderFault::Compressed { byte });
    }
    if byte > 10 {
        return Err(HeaderFault::Format { byte });
    }
    let (have, least) = (header.length, least_length(byte));
    if have < least {
        return Err(HeaderFault::RecordLength { have, least });
    }
    let offset = header.points_at;
    if offset < u32::from(header.size) {
        return Err(HeaderFault::Offset { offset });
    }
    Ok(header)
}
