ghost use Rattle.std.specs.Prelude.{◌≡◌};
ghost use Rattle.view_commands.specs.Run.{Runs};
ghost use Rattle.view_commands.specs.Steps.{RunsRow};
ghost use Rattle.view_commands.specs.declared.places.TheConstants.{INPUT, JOURNAL, OUT, OUTPUT, SURVEY, TRIAL_OUT};
ghost use Rattle.view_words.specs.CommandLine.{texts};

use crate::drawing::draw;
use crate::informing::info;
use crate::serving::serve;
use crate::status::Status;
use crate::told::{Ended, Told};
use crate::trying::trial;
use std::alloc::Global;
use std::sync::Wait;
use std::thread::Threads;
use view_ends::{Beside, Desk};
use view_words::{Row, read_row, row_of};

/// Runs the command that the words of the command line ask for, without the program's name.
pub fn run<R: Threads + Wait + Sync, D: Desk, B: Beside>(
    alloc: Global,
    rt: &R,
    words: &[String],
    desk: &mut D,
    beside: &B,
) -> Ended
    ensures runs { Runs D.tells (D.says desk.old) (D.says desk.new) (texts words.now) result }
    ensures places { (SURVEY ≡ 1) × (OUT ≡ 2) × (TRIAL_OUT ≡ 4) × (JOURNAL ≡ 3) × (INPUT ≡ 4) × (OUTPUT ≡ 5) }
{
    match row_of(words) {
        Some(row) => run_row(alloc, rt, row, words, desk, beside),
        None => Ended::only(alloc, Status::Words { at: 0 }),
    }
}

/// Runs the command of a row, with which the words begin.
fn run_row<R: Threads + Wait + Sync, D: Desk, B: Beside>(
    alloc: Global,
    rt: &R,
    row: Row,
    words: &[String],
    desk: &mut D,
    beside: &B,
) -> Ended
    ensures { RunsRow row D.tells (D.says desk.old) (D.says desk.new) (texts words.now) result }
{
    match row {
        Row::Draw => Ended::only(alloc, draw(alloc, rt, words, desk, beside)),
        Row::Info => Ended::only(alloc, info(alloc, words, desk)),
        Row::Trial => Ended::only(alloc, trial(alloc, rt, words, desk, beside)),
        Row::Serve => match read_row(Row::Serve, words) {
            Ok(()) => serve(alloc, rt, words, desk, beside),
            Err(at) => Ended::only(alloc, Status::Words { at }),
        },
    }
}
