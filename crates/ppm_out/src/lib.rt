//! Binary PPM pictures of maxval 255 (Netpbm): their length and their header.
#![tactic(auto)]

ghost use Rattle.std.specs.Prelude.{◌≡◌, ◌+◌, ◌*◌, ◌-◌, ◌≤◌, ◌<◌, ◌++◌, length, decimal};
ghost use Rattle.view_meaning.specs.Picture.{ppm_header};

use itoa::Buffer;
use view_base::Bytes;

/// The most bytes that a header has, with a width and a height of four digits.
pub const HEADER: usize = 17;

/// The length in bytes of a picture: its header, and three bytes for each pixel.
pub fn ppm_length(width: u32, height: u32) -> u64
    requires width { (1 ≤ width) × (width ≤ 4096) }
    requires height { (1 ≤ height) × (height ≤ 4096) }
    ensures { result ≡ length (ppm_header width height) + 3 * (width * height) }
{
    9 + digits(width) + digits(height) + 3 * u64::from(width) * u64::from(height)
}

/// How many decimal digits a number has, which are at most four.
fn digits(number: u32) -> u64
    requires { number ≤ 4096 }
    ensures count { result ≡ length (decimal number) }
    ensures few { result ≤ 4 }
{
    let mut text = Buffer::new();
    text.format(number).len() as u64
}

/// Appends the header of a picture. It fits in the room, so it takes no memory.
#[tactic(auto, using(crate::proofs::Lengths::length_decimal_side), unfolding(view_meaning::specs::Picture::ppm_header))]
pub fn ppm_header(width: u32, height: u32, out: &mut Bytes)
    requires width { (1 ≤ width) × (width ≤ 4096) }
    requires height { (1 ≤ height) × (height ≤ 4096) }
    requires room { HEADER ≤ out.old.spare }
    ensures appended { out.new.items ≡ out.old.items ++ ppm_header width height }
    ensures room { out.old.spare ≤ out.new.spare + HEADER }
{
    out.append_within(b"P6\n");
    out.append_decimal(u64::from(width));
    out.append_within(b" ");
    out.append_decimal(u64::from(height));
    out.append_within(b"\n255\n");
}
