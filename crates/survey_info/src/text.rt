ghost use Rattle.std.specs.Prelude.{◌≡◌, ◌≤◌, ◌+◌, ◌++◌, length, codes, decimal, OnOk, OnErr};
ghost use Rattle.std.specs.Fmt.{signed_decimal};
ghost use Rattle.survey_info.specs.Text.{line, field_lines, corner_text, box_line, class_line, class_lines, info_text};

use crate::summary::Summary;
use las_survey::Survey;
use view_base::{Box3, Bytes, OutOfMemory, Point};

/// The most bytes of a line: `class `, two numbers of 20 digits, a space and the end.
const LINE: usize = 48;

/// The most bytes of the lines of the header's fields.
const FIELDS: usize = 8 * LINE;

/// The most bytes of a corner: three times a space and a number like `-2147483648`.
const CORNER: usize = 3 * 12;

/// The most bytes of the line of the box.
const BOX: usize = 3 + 2 * CORNER + 1;

/// The most bytes of the lines of the classes.
const CLASSES: usize = 256 * LINE;

/// Appends what a survey is, in words, a line each: `LAS 1.` and the version's minor number, the
/// header's size, the point data record format and length, the numbers of records, of variable
/// length records and of extended ones, and the bytes of the file; where there are records the
/// corners of their box; and each class that has records, rising, with their number. It makes room
/// for the longest text first, and a refusal is want of that room and leaves the bytes as they
/// were. One pass over the records.
#[tactic(auto, unfolding(crate::specs::Text::info_text))]
pub fn info_text(survey: &Survey, out: &mut Bytes) -> Result<(), OutOfMemory>
    ensures appended { OnOk result (out.new.items ≡ out.old.items ++ info_text survey.now) }
    ensures refused { OnErr result (out.new.items ≡ out.old.items) }
{
    out.reserve(FIELDS + BOX + CLASSES)?;
    let summary = Summary::of(survey);
    append_fields(out, survey);
    append_box(out, summary.area);
    append_classes(out, &summary.counts);
    Ok(())
}

/// Appends the lines of the header's fields and the file's length.
fn append_fields(out: &mut Bytes, survey: &Survey)
    requires { FIELDS ≤ out.old.spare }
    ensures appended { out.new.items ≡ out.old.items ++ field_lines survey.now }
    ensures room { out.old.spare ≤ out.new.spare + FIELDS }
{
    let header = survey.header();
    append_line(out, b"LAS 1.", u64::from(header.minor));
    append_line(out, b"header ", u64::from(header.size));
    append_line(out, b"format ", u64::from(header.format));
    append_line(out, b"length ", u64::from(header.length));
    append_line(out, b"records ", header.records);
    append_line(out, b"vlrs ", u64::from(header.vlrs));
    append_line(out, b"evlrs ", u64::from(header.evlrs));
    append_line(out, b"bytes ", survey.bytes().len() as u64);
}

/// Appends a line of a label and a number. It fits in the room, so it takes no memory.
#[tactic(auto, using(view_base::proofs::Decimals::length_decimal), unfolding(crate::specs::Text::line))]
pub fn append_line(out: &mut Bytes, label: &[u8], number: u64)
    requires label { length label.now ≤ 8 }
    requires room { length label.now + 21 ≤ out.old.spare }
    ensures appended { out.new.items ≡ out.old.items ++ line label.now number }
    ensures room { out.old.spare ≤ out.new.spare + (length label.now + 21) }
{
    out.append_within(label);
    out.append_decimal(number);
    out.append_within(b"\n");
}

/// Appends the line of a box, if there is one.
#[tactic(auto, unfolding(crate::specs::Text::box_line))]
fn append_box(out: &mut Bytes, area: Option<Box3>)
    requires { BOX ≤ out.old.spare }
    ensures appended { out.new.items ≡ out.old.items ++ box_line area }
    ensures room { out.old.spare ≤ out.new.spare + BOX }
{
    if let Some(area) = area {
        out.append_within(b"box");
        append_corner(out, area.min);
        append_corner(out, area.max);
        out.append_within(b"\n");
    }
}

/// Appends X, Y and Z of a corner, each after a space.
#[tactic(auto, unfolding(crate::specs::Text::corner_text))]
fn append_corner(out: &mut Bytes, corner: Point)
    requires { CORNER ≤ out.old.spare }
    ensures appended { out.new.items ≡ out.old.items ++ corner_text corner }
    ensures room { out.old.spare ≤ out.new.spare + CORNER }
{
    append_coordinate(out, corner.x);
    append_coordinate(out, corner.y);
    append_coordinate(out, corner.z);
}

/// Appends a space and a coordinate: at most 12 bytes.
#[tactic(auto, using(view_base::proofs::Decimals::length_signed_decimal))]
fn append_coordinate(out: &mut Bytes, number: i32)
    requires { 12 ≤ out.old.spare }
    ensures appended { out.new.items ≡ out.old.items ++ codes " " ++ signed_decimal number }
    ensures room { out.old.spare ≤ out.new.spare + 12 }
{
    out.append_within(b" ");
    out.append_signed(i64::from(number));
}

/// Appends the lines of the classes that have records.
fn append_classes(out: &mut Bytes, counts: &[u32])
    requires all { length counts.now ≡ 256 }
    requires room { CLASSES ≤ out.old.spare }
    ensures { out.new.items ≡ out.old.items ++ class_lines counts.now }
{
    for class in 0..counts.len() {
        append_class(out, class as u64, counts[class]);
    }
}

/// Appends the line of a class, where it has records.
#[tactic(auto, using(view_base::proofs::Decimals::length_decimal), unfolding(crate::specs::Text::class_line))]
fn append_class(out: &mut Bytes, class: u64, count: u32)
    requires class { class ≤ 255 }
    requires room { LINE ≤ out.old.spare }
    ensures appended { out.new.items ≡ out.old.items ++ class_line class count }
    ensures room { out.old.spare ≤ out.new.spare + LINE }
{
    if count > 0 {
        out.append_within(b"class ");
        out.append_decimal(class);
        append_line(out, b" ", u64::from(count));
    }
}
