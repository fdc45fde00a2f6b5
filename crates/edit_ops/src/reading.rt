ghost use Rattle.std.specs.Prelude.{◌≡◌, ℕ, ◌+◌, ◌^◌, ◌<◌, ◌≤◌, Some, None, Ok, Err, OnOk, IfOk, IfErr};
ghost use Rattle.view_base.specs.Text.{words, digits};
ghost use Rattle.view_base.specs.Fitting.{word_at, misfit};
ghost use Rattle.view_base.specs.Cursor.{all_words};
ghost use Rattle.class_bits.specs.ClassSet.{class_list};
ghost use Rattle.class_bits.specs.Kept.{HasClasses};
ghost use Rattle.edit_ops.specs.EditLine.{coordinate, coordinate_at, point_at, fits, is_whole, edit_of};

use crate::edit::Edit;
use crate::fault::EditFault;
use class_bits::{ClassSet, ClassWord, top_class};
use view_base::{Box3, Cursor, DigitsWord, Form, Point, WordKind, WordsOf, read_number};

/// The words of an edit line.
struct EditForm;

impl Form for EditForm {
    ghost fits = { fits };

    ghost whole = { is_whole };
}

/// Words that are numbers of 32 bits.
struct CoordinateWord;

impl WordKind for CoordinateWord {
    type Value = i32;

    ghost value = { coordinate };

    ghost Keeps = { λ z. Unit {0} };

    fn read(word: &[u8]) -> Option<i32> {
        i32::try_from(read_number(word)?).ok()
    }
}

/// The coordinate that the next word is.
fn read_coordinate(rest: &mut Cursor<EditForm>) -> Result<i32, u32>
    requires first { 1 ≤ rest.old.place }
    requires last { rest.old.place ≤ 6 }
    ensures source { rest.new.source ≡ rest.old.source }
    ensures place { OnOk result (rest.new.place ≡ rest.old.place + 1) }
    ensures value { IfOk result
        (λ z. z ≡ coordinate_at (all_words rest.old.source) rest.old.place) }
    ensures misfit { IfErr result
        (λ at. misfit fits is_whole (all_words rest.old.source) ≡ Some at) }
{
    rest.read::<CoordinateWord>()
}

/// The point whose coordinates are the next three words.
fn read_point(rest: &mut Cursor<EditForm>) -> Result<Point, u32>
    requires first { 1 ≤ rest.old.place }
    requires last { rest.old.place ≤ 4 }
    ensures source { rest.new.source ≡ rest.old.source }
    ensures place { OnOk result (rest.new.place ≡ rest.old.place + 3) }
    ensures value { IfOk result
        (λ p. p ≡ point_at (all_words rest.old.source) rest.old.place) }
    ensures misfit { IfErr result
        (λ at. misfit fits is_whole (all_words rest.old.source) ≡ Some at) }
{
    Ok(Point {
        x: read_coordinate(rest)?,
        y: read_coordinate(rest)?,
        z: read_coordinate(rest)?,
    })
}

/// The fields of an edit line, its class not yet compared with a format.
#[derive(Clone, Copy)]
struct Fields {
    area: Box3,
    from: ClassSet,
    to: u128,
}

/// The fields of a whole line, or the first place where its words don't fit.
fn read_fields(line: &[u8]) -> Result<Fields, u32>
    ensures fit { OnOk result (misfit fits is_whole (words line.now) ≡ None) }
    ensures min { IfOk result (λ f. f.area.min ≡ point_at (words line.now) 1) }
    ensures max { IfOk result (λ f. f.area.max ≡ point_at (words line.now) 4) }
    ensures from { IfOk result (λ f. class_list (word_at (words line.now) 7) ≡ Some f.from) }
    ensures to { IfOk result (λ f. digits (word_at (words line.now) 8) ≡ Some f.to) }
    ensures classes { IfOk result (λ f. HasClasses f.from) }
    ensures small { IfOk result (λ f. f.to < 10 ^ 20) }
    ensures misfit { IfErr result (λ at. misfit fits is_whole (words line.now) ≡ Some at) }
{
    let mut rest = Cursor::<EditForm>::new(WordsOf::Line(line));
    rest.keyword(b"edit")?;
    let min = read_point(&mut rest)?;
    let max = read_point(&mut rest)?;
    let from = rest.read::<ClassWord>()?;
    let to = rest.read::<DigitsWord>()?;
    rest.end()?;
    Ok(Fields {
        area: Box3 { min, max },
        from,
        to,
    })
}

/// The edit that a line is for a point data record format (LAS 1.4 R15): the word `edit`, the
/// least and the greatest corner of a box in six numbers of 32 bits, a class list, and the class
/// that they get. `Line` names the first word that doesn't fit; `ClassRange` comes where all words
/// fit and the class is above the format's greatest.
pub fn read_edit(line: &[u8], format: u8) -> Result<Edit, EditFault>
    requires { format ≤ 10 }
    ensures { result ≡ edit_of (words line.now) format }
{
    match read_fields(line) {
        Ok(fields) => {
            if fields.to > u128::from(top_class(format)) {
                return Err(EditFault::ClassRange {
                    class: fields.to as i128,
                });
            }
            Ok(Edit {
                area: fields.area,
                from: fields.from,
                to: fields.to as u8,
            })
        }
        Err(at) => Err(EditFault::Line { at }),
    }
}
