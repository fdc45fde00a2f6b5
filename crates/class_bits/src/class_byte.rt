ghost use Rattle.std.specs.Prelude.{◌≡◌, ◌/◌, ◌≤◌};
ghost use Rattle.view_meaning.specs.Classes.{top_class, class_of, with_class};

/// The greatest class that a point data record format has room for: 31 in formats 0 to 5, 255 in
/// formats 6 to 10 (LAS 1.4 R15, classification).
pub fn top_class(format: u8) -> u8
    requires { format ≤ 10 }
    ensures { result ≡ top_class format }
{
    if format <= 5 { 31 } else { 255 }
}

/// The class in a record's class byte: its lower five bits in formats 0 to 5, the whole byte in
/// formats 6 to 10.
pub fn class_of(format: u8, byte: u8) -> u8
    requires { format ≤ 10 }
    ensures class { result ≡ class_of format byte }
    ensures top { result ≤ top_class format }
{
    if format <= 5 { byte & 31 } else { byte }
}

/// A class byte with another class. In formats 0 to 5 the three flags above the class stay:
/// synthetic, key-point and withheld.
pub fn with_class(format: u8, byte: u8, class: u8) -> u8
    requires known { format ≤ 10 }
    requires room { class ≤ top_class format }
    ensures byte { result ≡ with_class format byte class }
    ensures class { class_of format result ≡ class }
    ensures flags { format ≤ 5 → result / 32 ≡ byte / 32 }
{
    if format <= 5 {
        byte & 224 | class
    } else {
        class
    }
}
