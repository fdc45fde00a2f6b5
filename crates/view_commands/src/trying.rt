ghost use Rattle.std.specs.Prelude.{◌≡◌, ◌^◌, ◌≤◌, ◌++◌, [], codes, length, IfOk, OnOk};
ghost use Rattle.std.specs.Arc.{arc_value};
ghost use Rattle.sessions.specs.Worlds.{IsScene};
ghost use Rattle.survey_make.specs.Made.{made};
ghost use Rattle.view_base.specs.Fitting.{word_at};
ghost use Rattle.view_meaning.specs.Survey.{format_of};
ghost use Rattle.view_words.specs.CommandLine.{IsLine, texts};
ghost use Rattle.view_commands.specs.Calls.{AnswersTrial};
ghost use Rattle.view_commands.specs.Trial.{script_replies, TriesLine, WritesSummary, summary};
ghost use Rattle.view_commands.specs.Steps.{IsStage};
ghost use Rattle.view_commands.specs.declared.script.TheConstants.{COUNT, FORMAT, FROM_ABOVE, IN_PERSPECTIVE, RECLASSIFY};

use crate::places::TRIAL_OUT;
use crate::script::{COUNT, FORMAT, FROM_ABOVE, IN_PERSPECTIVE, RECLASSIFY};
use crate::status::Status;
use crate::storing::answer_line;
use crate::summing::summary_text;
use crate::texts::write_text;
use grid_blocks::build;
use las_survey::{LoadFault, Survey, load};
use min_frame::EmptyWords;
use sessions::Scene;
use std::alloc::Global;
use std::sync::Arc;
use std::thread::Threads;
use survey_make::make;
use version_store::Store;
use view_base::{Bytes, OutOfMemory};
use view_ends::{Beside, Desk, StillSource};
use view_words::{Row, read_row, records, start, text_at, workers};

/// Makes a survey of a number, answers two views, an edit and a count over it, and writes how many
/// bytes the replies have and what they sum up to. The words are those of the command line, `trial`
/// first; those of another command are refused.
///
/// Nothing is read from the desk. The text is the same on every machine and for every number of
/// workers, and it is whole in memory before its file is opened.
pub fn trial<R: Threads + Sync, D: Desk, B: Beside>(
    alloc: Global,
    rt: &R,
    words: &[String],
    desk: &mut D,
    beside: &B,
) -> Status
    ensures answers { AnswersTrial D.tells (D.says desk.old) (D.says desk.new) (texts words.now) result }
    ensures format { FORMAT ≡ 7 }
    ensures first { FROM_ABOVE.now ≡ codes "view ortho 256 256 32768 32768 0 1 0 0 0 1 0 0 0 1 256 1 0 65535 class all show" }
    ensures second { RECLASSIFY.now ≡ codes "edit 0 0 0 65535 65535 1023 all 2" }
    ensures third { IN_PERSPECTIVE.now
        ≡ codes "view persp 256 256 32768 32768 -65536 1 0 0 0 1 0 0 0 1 128 16 1 65535 intensity all hide" }
    ensures fourth { COUNT.now ≡ codes "count 2 show" }
{
    match read_row(Row::Trial, words) {
        Ok(()) => trial_line(alloc, rt, words, desk, beside),
        Err(at) => Status::Words { at },
    }
}

/// Writes the summary that the words of a `trial` ask for, which fit.
fn trial_line<R: Threads + Sync, D: Desk, B: Beside>(
    alloc: Global,
    rt: &R,
    words: &[String],
    desk: &mut D,
    beside: &B,
) -> Status
    requires line { IsLine Row.Trial (texts words.now) }
    requires long { 5 ≤ length words.now }
    ensures { TriesLine D.tells (D.says desk.old) (D.says desk.new) (texts words.now) result }
{
    let start = start(words);
    let records = records(words);
    let workers = workers(Row::Trial, words);
    let out = text_at(words, TRIAL_OUT as usize);
    trial_file(alloc, rt, start, records, workers, out, desk, beside)
}

/// Writes the summary of so many records that are made of a number into a file.
fn trial_file<R: Threads + Sync, D: Desk, B: Beside>(
    alloc: Global,
    rt: &R,
    start: u64,
    records: u32,
    workers: u32,
    out: &str,
    desk: &mut D,
    beside: &B,
) -> Status
    requires records { records ≤ 2 ^ 23 }
    requires workers { (1 ≤ workers) × (workers ≤ 64) }
    ensures { WritesSummary D.tells (D.says desk.old) (D.says desk.new) start records out.now result }
{
    match summary_of(alloc, rt, start, records, workers, beside) {
        Ok(text) => write_text(desk, TRIAL_OUT, out, text.as_slice()),
        Err(OutOfMemory) => Status::Memory,
    }
}

/// The summary of so many records that are made of a number.
#[tactic(auto, unfolding(crate::specs::Trial::summary))]
fn summary_of<R: Threads + Sync, B: Beside>(
    alloc: Global,
    rt: &R,
    start: u64,
    records: u32,
    workers: u32,
    beside: &B,
) -> Result<Bytes, OutOfMemory>
    requires records { records ≤ 2 ^ 23 }
    requires workers { (1 ≤ workers) × (workers ≤ 64) }
    ensures { IfOk result (λ text. text.items ≡ summary start records) }
{
    let survey = made_survey(alloc, start, records)?;
    let bytes = survey.bytes().len();
    let scene = scene_of(alloc, rt, survey, workers)?;
    let replies = replies_over(alloc, rt, &scene, beside)?;
    summary_text(alloc, records, bytes, replies.as_slice())
}

/// The survey of so many records that is made of a number.
fn made_survey(alloc: Global, start: u64, records: u32) -> Result<Survey, OutOfMemory>
    requires { records ≤ 2 ^ 23 }
    ensures { IfOk result (λ b. b ≡ made start records FORMAT) }
{
    let bytes = make(alloc, start, records, FORMAT)?;
    match load(alloc, &mut StillSource::new(bytes)) {
        Ok(survey) => Ok(survey),
        Err(fault) => match fault {
            LoadFault::Memory => Err(OutOfMemory),
            LoadFault::ReadFault => unreachable!(),
            LoadFault::TooLong => unreachable!(),
            LoadFault::Survey(_) => unreachable!(),
        },
    }
}

/// A survey as pictures of it are drawn.
fn scene_of<R: Threads + Sync>(
    alloc: Global,
    rt: &R,
    survey: Survey,
    workers: u32,
) -> Result<Scene, OutOfMemory>
    requires { (1 ≤ workers) × (workers ≤ 64) }
    ensures scene { IfOk result IsScene }
    ensures survey { IfOk result (λ scene. arc_value scene.survey ≡ survey) }
{
    let blocks = Arc::new(alloc, build(alloc, rt, workers, &survey)?)?;
    Ok(Scene {
        survey: Arc::new(alloc, survey)?,
        blocks,
        workers,
        empty: EmptyWords::none(alloc),
    })
}

/// The replies to the lines of a trial over a survey.
fn replies_over<R: Threads + Sync, B: Beside>(
    alloc: Global,
    rt: &R,
    scene: &Scene,
    beside: &B,
) -> Result<Bytes, OutOfMemory>
    requires scene { IsScene scene.now }
    requires format { format_of (arc_value scene.now.survey) ≡ FORMAT }
    ensures { IfOk result (λ out. out.items ≡ script_replies (arc_value scene.now.survey)) }
{
    let survey = Arc::try_clone(&scene.survey)?;
    let mut store = Store::over(alloc, survey, Arc::try_clone(&scene.blocks)?)?;
    let mut out = Bytes::new(alloc);
    append_replies(alloc, rt, scene, &mut store, beside, &mut out)?;
    Ok(out)
}

/// Appends the replies to the lines of a trial, in order.
fn append_replies<R: Threads + Sync, B: Beside>(
    alloc: Global,
    rt: &R,
    scene: &Scene,
    store: &mut Store,
    beside: &B,
    out: &mut Bytes,
) -> Result<(), OutOfMemory>
    requires stage { IsStage scene.now store.old }
    requires new { store.old.history ≡ [] }
    ensures { OnOk result (out.new.items ≡ out.old.items ++ script_replies (arc_value scene.now.survey)) }
{
    answer_line(alloc, rt, scene, store, FROM_ABOVE, beside, out)?;
    answer_line(alloc, rt, scene, store, RECLASSIFY, beside, out)?;
    answer_line(alloc, rt, scene, store, IN_PERSPECTIVE, beside, out)?;
    answer_line(alloc, rt, scene, store, COUNT, beside, out)
}
