ghost use Rattle.std.specs.Prelude.{◌≡◌, ◌≤◌, ◌==◌, length, Ok, Err, IfOk, IfErr, if◌then◌else◌};
ghost use Rattle.std.specs.Result.{result_map_both};
ghost use Rattle.view_base.specs.Text.{words};
ghost use Rattle.view_text.specs.ViewWords.{view_of, filter_of};
ghost use Rattle.edit_ops.specs.EditLine.{edit_of};
ghost use Rattle.view_lines.specs.Command.{viewed, edited, command_of, refusal_code, FitsFormat};

use crate::command::Command;
use crate::refusal::Refusal;
use edit_ops::{EditFault, read_edit};
use las_points::can_colour;
use view_base::next_word;
use view_text::{TextFault, read_filter, read_view};

/// The command of the words of a view, for a point data record format.
fn view_command(text: &[u8], format: u8) -> Result<Command, Refusal>
    requires { format ≤ 10 }
    ensures command { result ≡ viewed format (view_of (words text.now)) }
    ensures fits { IfOk result (FitsFormat format) }
    ensures codes { IfErr result (λ refusal. refusal_code refusal ≤ 4) }
{
    match read_view(text) {
        Ok(view) => {
            if can_colour(format, view.colouring) {
                Ok(Command::View(view))
            } else {
                Err(Refusal::NoColour)
            }
        }
        Err(TextFault::Line { .. }) => Err(Refusal::Line),
        Err(TextFault::Limit(limit)) => Err(Refusal::Limit(limit)),
    }
}

/// The command of an edit line, for a point data record format.
fn edit_command(line: &[u8], format: u8) -> Result<Command, Refusal>
    requires { format ≤ 10 }
    ensures command { result ≡ edited (edit_of (words line.now) format) }
    ensures fits { IfOk result (FitsFormat format) }
    ensures codes { IfErr result (λ refusal. refusal_code refusal ≤ 4) }
{
    match read_edit(line, format) {
        Ok(edit) => Ok(Command::Edit(edit)),
        Err(EditFault::Line { .. }) => Err(Refusal::Line),
        Err(EditFault::ClassRange { .. }) => Err(Refusal::ClassRange),
    }
}

/// The command of the words of a filter.
fn count_command(text: &[u8]) -> Result<Command, Refusal>
    ensures command { result ≡ result_map_both Command.Count (λ _. Refusal.Line) (filter_of (words text.now)) }
    ensures codes { IfErr result (λ refusal. refusal_code refusal ≤ 4) }
{
    match read_filter(text) {
        Ok(filter) => Ok(Command::Count(filter)),
        Err(_) => Err(Refusal::Line),
    }
}

/// The command of a line that goes on with this text after the word `save`.
fn save_command(rest: &[u8]) -> Result<Command, Refusal>
    ensures command { result ≡ (if length (words rest.now) == 0 then Ok Command.Save else Err Refusal.Line) }
    ensures codes { IfErr result (λ refusal. refusal_code refusal ≤ 4) }
{
    match next_word(rest, 0) {
        Some(_) => Err(Refusal::Line),
        None => Ok(Command::Save),
    }
}

/// The command that a line is, for a survey of this point data record format (LAS 1.4 R15):
/// `view` and the 22 words of a view, `edit` and the 8 words of an edit, `count` and the 2 words of
/// a filter, or `save` alone. Every other line is refused as `Line`. `Limit` comes where a view's
/// camera has a number out of its range, `NoColour` where all its numbers are in range and it shows
/// red, green and blue that the format doesn't have, `ClassRange` where an edit's new class is
/// above the greatest class of the format. What a session holds is nothing to it, so it answers
/// neither `AlreadyHeld` nor `NotHeld`. Takes no memory.
pub fn read_command(line: &[u8], format: u8) -> Result<Command, Refusal>
    requires { format ≤ 10 }
    ensures command { result ≡ command_of (words line.now) format }
    ensures fits { IfOk result (FitsFormat format) }
    ensures codes { IfErr result (λ refusal. refusal_code refusal ≤ 4) }
{
    let Some((start, end)) = next_word(line, 0) else {
        return Err(Refusal::Line);
    };
    let word = &line[start..end];
    if word == b"view".as_slice() {
        return view_command(&line[end..], format);
    }
    if word == b"edit".as_slice() {
        return edit_command(line, format);
    }
    if word == b"count".as_slice() {
        return count_command(&line[end..]);
    }
    if word == b"save".as_slice() {
        return save_command(&line[end..]);
    }
    Err(Refusal::Line)
}
