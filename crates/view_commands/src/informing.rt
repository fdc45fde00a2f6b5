ghost use Rattle.std.specs.Prelude.{◌≡◌, ◌≤◌, length, None, IfOk};
ghost use Rattle.survey_info.specs.Text as told;
ghost use Rattle.view_commands.specs.Calls.{AnswersInfo};
ghost use Rattle.view_commands.specs.Texts.{MakesText};
ghost use Rattle.view_base.specs.Fitting.{word_at};
ghost use Rattle.view_words.specs.CommandLine.{IsLine, texts};

use crate::places::OUT;
use crate::status::Status;
use crate::texts::{read_survey, write_text};
use las_survey::Survey;
use std::alloc::Global;
use survey_info::info_text;
use view_base::{Bytes, OutOfMemory};
use view_ends::Desk;
use view_words::{Row, read_row, text_at};

/// Writes what a survey is, in words. The words are those of the command line, `info` first; those
/// of another command are refused.
///
/// The text is whole in memory before its file is opened, so no refusal before that touches a file.
pub fn info<D: Desk>(alloc: Global, words: &[String], desk: &mut D) -> Status
    ensures { AnswersInfo D.tells (D.says desk.old) (D.says desk.new) (texts words.now) result }
{
    match read_row(Row::Info, words) {
        Ok(()) => info_line(alloc, words, desk),
        Err(at) => Status::Words { at },
    }
}

/// Writes the text that the words of an `info` ask for, which fit.
fn info_line<D: Desk>(alloc: Global, words: &[String], desk: &mut D) -> Status
    requires line { IsLine Row.Info (texts words.now) }
    requires long { 3 ≤ length words.now }
    ensures { MakesText D.tells (D.says desk.old) (D.says desk.new) (word_at (texts words.now) 1) (word_at (texts words.now) 2)
        (λ b. None) told.info_text result }
{
    info_file(alloc, text_at(words, 1), text_at(words, 2), desk)
}

/// Writes the info text of the survey of one name into the file of another.
fn info_file<D: Desk>(alloc: Global, name: &str, out: &str, desk: &mut D) -> Status
    ensures { MakesText D.tells (D.says desk.old) (D.says desk.new) name.now out.now (λ b. None) told.info_text result }
{
    let survey = match read_survey(alloc, desk, name) {
        Ok(survey) => survey,
        Err(status) => return status,
    };
    match text_of(alloc, &survey) {
        Ok(bytes) => write_text(desk, OUT, out, bytes.as_slice()),
        Err(OutOfMemory) => Status::Memory,
    }
}

/// The info text of a survey.
fn text_of(alloc: Global, survey: &Survey) -> Result<Bytes, OutOfMemory>
    ensures { IfOk result (λ bytes. bytes.items ≡ told.info_text survey.now) }
{
    let mut bytes = Bytes::new(alloc);
    info_text(survey, &mut bytes)?;
    Ok(bytes)
}
