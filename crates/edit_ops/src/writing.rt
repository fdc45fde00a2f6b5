ghost use Rattle.std.specs.Prelude.{◌≡◌, ℕ, ◌+◌, ◌<◌, ◌≤◌, ◌++◌, ◌∷◌, [], length, decimal, Ok, Some, OnOk, OnErr, FitsSigned, if◌then◌else◌};
ghost use Rattle.std.specs.Fmt.{signed_decimal};
ghost use Rattle.std.specs.Int.{w32};
ghost use Rattle.view_meaning.specs.Classes.{top_class};
ghost use Rattle.view_base.specs.Text.{words};
ghost use Rattle.class_bits.specs.ClassSet.{members, class_list};
ghost use Rattle.class_bits.specs.Kept.{IsClassSet};
ghost use Rattle.edit_ops.specs.Edit.{IsPoint};
ghost use Rattle.edit_ops.specs.EditLine.{edit_of};
ghost use Rattle.edit_ops.specs.EditLine.{run_text, classes_text, canonical};

use crate::edit::Edit;
use crate::runs::next_run;
use class_bits::ClassSet;
use view_base::{Bytes, OutOfMemory, Point};

/// The most bytes of a class list: for each class 7 for its run, as `100-255`, and a comma.
const LIST: usize = 256 * 8;

/// The most bytes of a canonical line: `edit`, six spaces and coordinates, a space and the class
/// list, a space and the class.
const LINE: usize = 4 + 6 * 12 + 1 + LIST + 4;

/// Appends the canonical line of an edit, without an end of line: single spaces, no leading zeros,
/// and the classes as `all` or by their longest runs. It makes room for the longest line first, and
/// a refusal is want of that room and leaves the bytes as they were. Reading the line gives the
/// edit again, for each format that has room for its class.
pub fn edit_text(edit: &Edit, out: &mut Bytes) -> Result<(), OutOfMemory>
    ensures appended { OnOk result (out.new.items ≡ out.old.items ++ canonical edit.now) }
    ensures refused { OnErr result (out.new.items ≡ out.old.items) }
    ensures reads_back { OnOk result ((format : ℕ) → edit.now.to ≤ top_class format
        → edit_of (words (canonical edit.now)) format ≡ Ok edit.now) }
{
    out.reserve(LINE)?;
    out.append_within(b"edit");
    append_corner(out, edit.area.min);
    append_corner(out, edit.area.max);
    out.append_within(b" ");
    append_classes(out, &edit.from);
    out.append_within(b" ");
    append_class(out, edit.to);
    Ok(())
}

/// Appends the canonical class list of a set that has a class, as a canonical edit line has it:
/// `all`, or the longest runs of neighbours as `a` or `a-b` in rising order, with single commas
/// between them. It makes room for the longest list first, and a refusal is want of that room and
/// leaves the bytes as they were. Reading the list gives the set again.
pub fn classes_text(set: &ClassSet, out: &mut Bytes) -> Result<(), OutOfMemory>
    requires { 0 < length (members set.now) }
    ensures appended { OnOk result (out.new.items ≡ out.old.items ++ classes_text set.now) }
    ensures refused { OnErr result (out.new.items ≡ out.old.items) }
    ensures reads_back { OnOk result (IsClassSet set.now → class_list (classes_text set.now) ≡ Some set.now) }
{
    out.reserve(LIST)?;
    append_classes(out, set);
    Ok(())
}

/// Appends a space and a coordinate, three times: at most 36 bytes.
fn append_corner(out: &mut Bytes, corner: Point)
    requires { 36 ≤ out.old.spare }
    ensures appended { out.new.items ≡ out.old.items
        ++ (32 ∷ signed_decimal corner.x)
        ++ (32 ∷ signed_decimal corner.y)
        ++ (32 ∷ signed_decimal corner.z) }
    ensures room { out.old.spare ≤ out.new.spare + 36 }
    ensures corner { IsPoint corner }
{
    append_coordinate(out, corner.x);
    append_coordinate(out, corner.y);
    append_coordinate(out, corner.z);
}

/// Appends a space and a coordinate: at most 12 bytes, as ` -2147483648`.
#[tactic(auto, using(view_base::proofs::Decimals::length_signed_decimal))]
fn append_coordinate(out: &mut Bytes, number: i32)
    requires { 12 ≤ out.old.spare }
    ensures appended { out.new.items ≡ out.old.items ++ (32 ∷ signed_decimal number) }
    ensures room { out.old.spare ≤ out.new.spare + 12 }
    ensures fits { FitsSigned w32 number }
{
    out.append_within(b" ");
    out.append_signed(i64::from(number));
}

/// Appends a class in decimal: at most 3 bytes.
#[tactic(auto, using(view_base::proofs::Decimals::length_decimal_byte))]
fn append_class(out: &mut Bytes, class: u8)
    requires { 3 ≤ out.old.spare }
    ensures appended { out.new.items ≡ out.old.items ++ decimal class }
    ensures room { out.old.spare ≤ out.new.spare + 3 }
    ensures class { class ≤ 255 }
{
    out.append_decimal(u64::from(class));
}

/// Appends a run of classes: at most 7 bytes.
fn append_run(out: &mut Bytes, first: u8, last: u8)
    requires { 7 ≤ out.old.spare }
    ensures appended { out.new.items ≡ out.old.items ++ run_text (first, last) }
    ensures room { out.old.spare ≤ out.new.spare + 7 }
{
    append_class(out, first);
    if first != last {
        out.append_within(b"-");
        append_class(out, last);
    }
}

/// Appends a set of classes.
fn append_classes(out: &mut Bytes, classes: &ClassSet)
    requires { LIST ≤ out.old.spare }
    ensures appended { out.new.items ≡ out.old.items ++ classes_text classes.now }
    ensures room { out.old.spare ≤ out.new.spare + LIST }
{
    if *classes == ClassSet::all() {
        out.append_within(b"all");
        return;
    }
    let mut from = 0;
    while let Some((first, last)) = next_run(classes, from) {
        append_item(out, from == 0, first, last);
        from = u16::from(last) + 1;
    }
}

/// Appends an item of a class list, after a comma where it isn't the first: at most 8 bytes.
fn append_item(out: &mut Bytes, is_first: bool, first: u8, last: u8)
    requires { 8 ≤ out.old.spare }
    ensures appended { out.new.items ≡ out.old.items
        ++ (if is_first then run_text (first, last) else 44 ∷ run_text (first, last)) }
    ensures room { out.old.spare ≤ out.new.spare + 8 }
{
    if !is_first {
        out.append_within(b",");
    }
    append_run(out, first, last);
}
