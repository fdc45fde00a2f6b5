ghost use Rattle.std.specs.Prelude.{◌≡◌, ◌≤◌, [], ◌∷◌, length, Some, OnOk, IfErr};
ghost use Rattle.view_words.specs.CommandLine.{texts, badword, draw_of, IsLine, least_words};

use crate::refusing::{badword_in, view_in};
use crate::row::{Row, begins};
use view_text::{TextFault, ViewSpec};

/// Whether the words of a command line are those of one row of the table. `Err` names the first
/// word that is refused by its place from 0, and place 0 where the first is not the row's command,
/// or the number of words where more are needed. Takes no memory.
pub fn read_row(row: Row, words: &[String]) -> Result<(), u32>
    ensures fits { OnOk result (IsLine row (texts words.now)) }
    ensures long { OnOk result (least_words row ≤ length words.now) }
    ensures refused { IfErr result (λ at. badword (row ∷ []) (texts words.now) ≡ Some at) }
{
    if !begins(row, words) {
        return Err(0);
    }
    match badword_in(row, words) {
        Some(at) => Err(at),
        None => Ok(()),
    }
}

/// The view that the words of a command line ask for as those of a `draw`. `Line` names the first
/// word that is refused by its place from 0, and place 0 where the first is not `draw`, or the
/// number of words where more are needed. `Limit` comes where no word is refused, and is the first
/// camera number out of its range. Takes no memory.
pub fn read_draw(words: &[String]) -> Result<ViewSpec, TextFault>
    ensures view { result ≡ draw_of (texts words.now) }
    ensures fits { OnOk result (IsLine Row.Draw (texts words.now)) }
    ensures long { OnOk result (least_words Row.Draw ≤ length words.now) }
{
    if !begins(Row::Draw, words) {
        return Err(TextFault::Line { at: 0 });
    }
    view_in(words)
}
