ghost use Rattle.std.specs.Prelude.{◌≡◌, ◌≤◌, [], length, true, IfOk};
ghost use Rattle.grid_blocks.specs.Blocks.{IsBlocks};
ghost use Rattle.view_base.specs.Fitting.{word_at};
ghost use Rattle.view_commands.specs.Calls.{AnswersDraw};
ghost use Rattle.view_commands.specs.Texts.{MakesText, colour_refusal};
ghost use Rattle.view_meaning.specs.Classes.{classes};
ghost use Rattle.view_meaning.specs.Picture.{can_colour, picture};
ghost use Rattle.view_meaning.specs.Survey.{format_of, record_count};
ghost use Rattle.view_words.specs.CommandLine.{IsLine, texts};

use crate::places::OUT;
use crate::status::Status;
use crate::texts::{read_survey, write_text};
use class_pages::{Classes, base};
use grid_blocks::{Blocks, build_by_number};
use las_points::can_colour;
use las_survey::Survey;
use min_frame::EmptyWords;
use sessions::{Scene, picture};
use std::alloc::Global;
use std::sync::Arc;
use std::thread::{Threads, join};
use view_base::{Bytes, OutOfMemory};
use view_ends::{Beside, Desk};
use view_text::{TextFault, ViewSpec};
use view_words::{Row, read_draw, text_at, workers};

/// Writes one picture of a survey. The words are those of the command line, `draw` first; those of
/// another command are refused.
///
/// The first of these that applies is the status: a refused word, a camera number out of its range,
/// a survey that was not opened, not read, too long or not laid out, a colouring that its format
/// doesn't have, and an output that was not opened or not written. The picture is whole in memory
/// before its file is opened, so no refusal before that touches a file. How many workers draw it
/// changes no byte.
pub fn draw<R: Threads + Sync, D: Desk, B: Beside>(
    alloc: Global,
    rt: &R,
    words: &[String],
    desk: &mut D,
    beside: &B,
) -> Status
    ensures { AnswersDraw D.tells (D.says desk.old) (D.says desk.new) (texts words.now) result }
{
    match read_draw(words) {
        Ok(view) => draw_view(alloc, rt, words, &view, desk, beside),
        Err(fault) => match fault {
            TextFault::Line { at } => Status::Words { at },
            TextFault::Limit(limit) => Status::Limit(limit),
        },
    }
}

/// Writes the picture of a view under the names of the words of a `draw`, which fit.
fn draw_view<R: Threads + Sync, D: Desk, B: Beside>(
    alloc: Global,
    rt: &R,
    words: &[String],
    view: &ViewSpec,
    desk: &mut D,
    beside: &B,
) -> Status
    requires line { IsLine Row.Draw (texts words.now) }
    requires long { 26 ≤ length words.now }
    ensures { MakesText D.tells (D.says desk.old) (D.says desk.new) (word_at (texts words.now) 1) (word_at (texts words.now) 2)
        (colour_refusal view.now) (λ b. picture b (classes b []) view.now) result }
{
    let workers = workers(Row::Draw, words);
    let (name, out) = (text_at(words, 1), text_at(words, 2));
    draw_file(alloc, rt, name, out, view, workers, desk, beside)
}

/// Draws the survey of one name into the file of another.
fn draw_file<R: Threads + Sync, D: Desk, B: Beside>(
    alloc: Global,
    rt: &R,
    name: &str,
    out: &str,
    view: &ViewSpec,
    workers: u32,
    desk: &mut D,
    beside: &B,
) -> Status
    requires workers { (1 ≤ workers) × (workers ≤ 64) }
    ensures { MakesText D.tells (D.says desk.old) (D.says desk.new) name.now out.now (colour_refusal view.now) (λ b. picture b (classes b []) view.now) result }
{
    let survey = match read_survey(alloc, desk, name) {
        Ok(survey) => survey,
        Err(status) => return status,
    };
    let format = survey.header().format;
    if !can_colour(format, view.colouring) {
        return Status::NoColour { format };
    }
    match picture_of(alloc, rt, survey, view, workers, beside) {
        Ok(bytes) => write_text(desk, OUT, out, bytes.as_slice()),
        Err(OutOfMemory) => Status::Memory,
    }
}

/// The picture of a survey as the file itself has its classes.
fn picture_of<R: Threads + Sync, B: Beside>(
    alloc: Global,
    rt: &R,
    survey: Survey,
    view: &ViewSpec,
    workers: u32,
    beside: &B,
) -> Result<Bytes, OutOfMemory>
    requires workers { (1 ≤ workers) × (workers ≤ 64) }
    requires can_colour { can_colour (format_of survey) view.now.colouring ≡ true }
    ensures { IfOk result (λ bytes. bytes.items ≡ picture survey (classes survey []) view.now) }
{
    let (blocks, classes) = blocks_and_classes(alloc, rt, &survey, workers)?;
    let scene = Scene {
        survey: Arc::new(alloc, survey)?,
        blocks: Arc::new(alloc, blocks)?,
        workers,
        empty: EmptyWords::none(alloc),
    };
    let mut bytes = Bytes::new(alloc);
    picture(alloc, rt, &scene, &classes, view, beside, &mut bytes)?;
    Ok(bytes)
}

/// The blocks of a survey by number, and the classes in its file. Both are a pass over the records,
/// and are made side by side where there is more than one worker.
fn blocks_and_classes<R: Threads + Sync>(
    alloc: Global,
    rt: &R,
    survey: &Survey,
    workers: u32,
) -> Result<(Blocks, Classes), OutOfMemory>
    ensures blocks { IfOk result (λ made. IsBlocks survey.now made.0) }
    ensures classes { IfOk result (λ made. made.1 ≡ classes survey.now []) }
    ensures size { IfOk result (λ made. length made.1 ≡ record_count survey.now) }
{
    if workers < 2 {
        let blocks = build_by_number(alloc, survey)?;
        return Ok((blocks, base(alloc, survey)?));
    }
    let (blocks, classes) = join(
        rt,
        || -> Result<Blocks, OutOfMemory>
            ensures { IfOk result (IsBlocks survey.entry.now) }
        { build_by_number(alloc, survey) },
        || -> Result<Classes, OutOfMemory>
            ensures { IfOk result (λ made. (made ≡ classes survey.entry.now [])
                × (length made ≡ record_count survey.entry.now)) }
        { base(alloc, survey) },
    );
    Ok((blocks?, classes?))
}
