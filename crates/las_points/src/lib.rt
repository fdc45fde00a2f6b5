//! The fields of one point data record (LAS 1.4 R15, point data record formats 0 to 10).
#![tactic(auto)]

ghost use Rattle.std.specs.Prelude.{◌≡◌, ◌+◌, ◌≤◌, length, IfSome};
ghost use Rattle.std.specs.Option.{option_map};
ghost use Rattle.view_meaning.specs.Layout.{least_length};
ghost use Rattle.view_meaning.specs.Picture.{can_colour};
ghost use Rattle.view_meaning.specs.Survey.{u8_at, u16_at, i32_at, class_place, rgb_place, rgb_at, is_withheld};

use byteorder::{ByteOrder, LittleEndian};
use view_base::{Colouring, Point, Rgb};

/// X, Y and Z of a record, in the file's integer units. Every format has them in its first 12
/// bytes.
pub fn xyz(rec: &[u8]) -> Point
    requires { 20 ≤ length rec.now }
    ensures { result ≡ record { x = i32_at rec.now 0; y = i32_at rec.now 4; z = i32_at rec.now 8 } }
{
    Point {
        x: coordinate(rec, 0),
        y: coordinate(rec, 4),
        z: coordinate(rec, 8),
    }
}

/// The signed number in the four bytes from a place on.
fn coordinate(rec: &[u8], at: usize) -> i32
    requires { at + 4 ≤ length rec.now }
    ensures { result ≡ i32_at rec.now at }
{
    LittleEndian::read_i32(&rec[at..])
}

/// The unsigned number in the two bytes from a place on.
#[tactic(auto, using(view_meaning::proofs::Reading::numbers))]
fn number(rec: &[u8], at: usize) -> u16
    requires { at + 2 ≤ length rec.now }
    ensures { result ≡ u16_at rec.now at }
{
    LittleEndian::read_u16(&rec[at..])
}

/// The intensity of a record. Every format has it at 12.
pub fn intensity(rec: &[u8]) -> u16
    requires { 20 ≤ length rec.now }
    ensures { result ≡ u16_at rec.now 12 }
{
    number(rec, 12)
}

/// Red, green and blue of a record, or `None` in the formats that have none: 0, 1, 4, 6 and 9.
pub fn rgb(format: u8, rec: &[u8]) -> Option<Rgb>
    requires known { format ≤ 10 }
    requires whole { least_length format ≤ length rec.now }
    ensures { result ≡ option_map (rgb_at rec.now) (rgb_place format) }
{
    let at = rgb_place(format)?;
    Some(rgb_from(rec, at))
}

/// Whether records of a format have what a colouring shows. Those of the formats 0, 1, 4, 6 and 9
/// have no red, green and blue.
pub fn can_colour(format: u8, colouring: Colouring) -> bool
    requires { format ≤ 10 }
    ensures { result ≡ can_colour format colouring }
{
    match colouring {
        Colouring::Class | Colouring::Intensity => true,
        Colouring::Rgb16 | Colouring::Rgb8 => rgb_place(format).is_some(),
    }
}

/// Red, green and blue from a place on.
#[tactic(auto, unfolding(view_meaning::specs::Survey::rgb_at))]
fn rgb_from(rec: &[u8], at: usize) -> Rgb
    requires { at + 6 ≤ length rec.now }
    ensures { result ≡ rgb_at rec.now at }
{
    Rgb {
        red: number(rec, at),
        green: number(rec, at + 2),
        blue: number(rec, at + 4),
    }
}

/// Where a record of a format has its red, green and blue, three numbers of 16 bits, if it has them.
pub fn rgb_place(format: u8) -> Option<usize>
    requires { format ≤ 10 }
    ensures place { result ≡ rgb_place format }
    ensures within { IfSome result (λ at. at + 6 ≤ least_length format) }
{
    match format {
        2 => Some(20),
        3 | 5 => Some(28),
        7 | 8 | 10 => Some(30),
        _ => None,
    }
}

/// Whether a record is withheld: bit 7 of the byte at 15 in formats 0 to 5, bit 2 in formats 6 to
/// 10 (LAS 1.4 R15, classification flags).
#[tactic(auto, unfolding(view_meaning::specs::Survey::u8_at))]
pub fn withheld(format: u8, rec: &[u8]) -> bool
    requires known { format ≤ 10 }
    requires whole { least_length format ≤ length rec.now }
    ensures { result ≡ is_withheld format (u8_at rec.now 15) }
{
    let flags = rec[15];
    if format <= 5 {
        flags / 128 % 2 == 1
    } else {
        flags / 4 % 2 == 1
    }
}

/// The place of the byte that has the class, within a record of a format: 15 in formats 0 to 5,
/// where it has flags too, and 16 in formats 6 to 10.
pub fn class_place(format: u8) -> usize
    requires { format ≤ 10 }
    ensures { result ≡ class_place format }
{
    if format <= 5 { 15 } else { 16 }
}
