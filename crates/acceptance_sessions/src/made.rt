ghost use Rattle.std.specs.Prelude.{◌≤◌};

use std::alloc::Global;
use std::test::Fail;
use survey_make::make;
use test_desks::{append_header, same};
use view_base::{Bytes, OutOfMemory};

/// The numbers of a record as they stand in the file: X, Y, Z and intensity; the class; red, green and
/// blue.
type Numbers<'a> = (&'a [u8], u8, &'a [u8]);

/// The first three records that are made of 0. Their draws are, by arithmetic, 335903614, 436792849,
/// 2599843874, 1723210473, 1647660250; 2408873782, 339776368, 1528919950, 2073582529, 1918036279;
/// 2720015006, 1568492964, 208906765, 417927290, 3921465960. So X is 31614, 32566, 8862, Y 60945, 37744,
/// 19876, Z 2082, 1934, 2573, intensity 6889, 23489, 4218, and class 26, 23, 8.
const RECORDS: [Numbers; 3] = [
    (
        b"\x7E\x7B\0\0\x11\xEE\0\0\x22\x08\0\0\xE9\x1A",
        26,
        b"\xE9\x1A\x7E\x7B\x11\xEE",
    ),
    (
        b"\x36\x7F\0\0\x70\x93\0\0\x8E\x07\0\0\xC1\x5B",
        23,
        b"\xC1\x5B\x36\x7F\x70\x93",
    ),
    (
        b"\x9E\x22\0\0\xA4\x4D\0\0\x0D\x0A\0\0\x7A\x10",
        8,
        b"\x7A\x10\x9E\x22\xA4\x4D",
    ),
];

/// Where class and red stand in a record, and its length: LAS 1.4 R15, tables 7 to 18. There is no red
/// where its place is 0.
type Layout = (usize, usize, u16);

/// As many bytes 0 as the longest record has bytes.
const ZEROS: [u8; 67] = [0; 67];

/// Appends the bytes 0 between two places of a record.
fn append_zeros(bytes: &mut Bytes, from: usize, to: usize) -> Result<(), OutOfMemory> {
    bytes.append(ZEROS.get(from..to).unwrap_or(&[]))
}

/// Appends a record.
fn append_record(bytes: &mut Bytes, layout: Layout, numbers: Numbers) -> Result<(), OutOfMemory> {
    let (class_at, red_at, length) = layout;
    let (place, class, colour) = numbers;
    bytes.append(place)?;
    append_zeros(bytes, 14, class_at)?;
    bytes.append(&[class])?;
    let behind = class_at.saturating_add(1);
    if red_at == 0 {
        return append_zeros(bytes, behind, usize::from(length));
    }
    append_zeros(bytes, behind, red_at)?;
    bytes.append(colour)?;
    append_zeros(bytes, red_at.saturating_add(6), usize::from(length))
}

/// The survey of so many records of a format that is made of 0 has to have its bytes.
fn makes(alloc: Global, format: u8, records: u32, layout: Layout) -> Result<(), Fail>
    requires format { format ≤ 10 }
    requires few { records ≤ 3 }
{
    let (_, _, length) = layout;
    let mut wanted = Bytes::new(alloc);
    append_header(&mut wanted, 375, 0, format, length, records as usize)?;
    for numbers in RECORDS.get(..records as usize).unwrap_or(&[]) {
        append_record(&mut wanted, layout, *numbers)?;
    }
    let made = make(alloc, 0, records, format)?;
    same(&made.as_slice(), &wanted.as_slice(), "the survey")
}

/// The surveys of a format without records, of one and of three have to have their bytes.
fn each_makes(alloc: Global, format: u8, layout: Layout) -> Result<(), Fail>
    requires format { format ≤ 10 }
{
    makes(alloc, format, 0, layout)?;
    makes(alloc, format, 1, layout)?;
    makes(alloc, format, 3, layout)
}

#[test]
fn a_survey_of_each_format_is_made(rt: HostRuntime) -> Result<(), Fail> {
    each_makes(rt.alloc(), 0, (15, 0, 20))?;
    each_makes(rt.alloc(), 1, (15, 0, 28))?;
    each_makes(rt.alloc(), 2, (15, 20, 26))?;
    each_makes(rt.alloc(), 3, (15, 28, 34))?;
    each_makes(rt.alloc(), 4, (15, 0, 57))?;
    each_makes(rt.alloc(), 5, (15, 28, 63))?;
    each_makes(rt.alloc(), 6, (16, 0, 30))?;
    each_makes(rt.alloc(), 7, (16, 30, 36))?;
    each_makes(rt.alloc(), 8, (16, 30, 38))?;
    each_makes(rt.alloc(), 9, (16, 0, 59))?;
    each_makes(rt.alloc(), 10, (16, 30, 67))
}
