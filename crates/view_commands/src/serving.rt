ghost use Rattle.std.specs.Arc.{arc_value};
ghost use Rattle.std.specs.Prelude.{◌≡◌, ◌+◌, ◌*◌, ◌≤◌, [], pos, length, vec_capacity, Some, IfOk};
ghost use Rattle.sessions.specs.Worlds.{IsWorld};
ghost use Rattle.view_base.specs.Fitting.{word_at};
ghost use Rattle.view_base.specs.Text.{number};
ghost use Rattle.view_ends.specs.Desk.{IsKnown};
ghost use Rattle.view_words.specs.CommandLine.{IsLine, texts, workers_place};
ghost use Rattle.view_commands.specs.Run.{ServesLine};
ghost use Rattle.view_commands.specs.Steps.{CanFinish, EachFrom, FinishesRun, IsRoomFor, IsUnwritten, ServesIn, root_of};
ghost use Rattle.view_commands.specs.declared.places.TheConstants.{JOURNAL};

use crate::finishing::{Outcomes, finish_all};
use crate::journal::write_journal;
use crate::opening::{journal_name, open_all, shut_all};
use crate::places::SURVEY;
use crate::seats::Seat;
use crate::side_by_side::serve_all;
use crate::status::{Status, status_of};
use crate::texts::read_survey;
use crate::told::{Ended, Told};
use grid_blocks::build;
use las_survey::Survey;
use min_frame::EmptyWords;
use sessions::{Scene, World};
use std::alloc::Global;
use std::sync::{Arc, Wait};
use std::thread::Threads;
use version_store::{Pass, Shared};
use view_base::OutOfMemory;
use view_ends::{Beside, Desk, Sink, Source};
use view_words::{Row, pair_count, text_at, workers};

/// How many pixels the words that sessions' frames are copied from are for: those of 1920 by 1080.
const USUAL_PIXELS: u32 = 1920 * 1080;

/// What the sessions of a run share, and the room for them, which is made before anything is opened
/// to write.
struct Room<I: Source, O: Sink> {
    world: World,
    root: Pass,
    seats: Vec<Seat<I, O>>,
    outcomes: Outcomes,
}

/// Serves the sessions of a `serve` whose words fit, all side by side over one survey, and then
/// writes the journal.
pub(crate) fn serve<R: Threads + Wait + Sync, D: Desk, B: Beside>(
    alloc: Global,
    rt: &R,
    words: &[String],
    desk: &mut D,
    beside: &B,
) -> Ended
    requires line { IsLine Row.Serve (texts words.now) }
    ensures { ServesLine D.tells (D.says desk.old) (D.says desk.new) (texts words.now) result }
{
    let count = pair_count(words);
    let survey = match read_survey(alloc, desk, text_at(words, SURVEY as usize)) {
        Ok(survey) => survey,
        Err(status) => return Ended::only(alloc, status),
    };
    match make_room(alloc, rt, survey, workers(Row::Serve, words), count) {
        Ok(room) => serve_in(alloc, rt, words, count, room, desk, beside),
        Err(OutOfMemory) => Ended::only(alloc, Status::Memory),
    }
}

/// The world of the sessions, over a survey, and the room for them.
fn make_room<R: Threads + Sync, I: Source, O: Sink>(
    alloc: Global,
    rt: &R,
    survey: Survey,
    workers: u32,
    count: u32,
) -> Result<Room<I, O>, OutOfMemory>
    requires workers { (1 ≤ workers) × (workers ≤ 64) }
    ensures world { IfOk result (λ room. IsWorld room.world) }
    ensures workers { IfOk result (λ room. room.world.scene.workers ≡ workers) }
    ensures survey { IfOk result (λ room. arc_value room.world.scene.survey ≡ survey) }
    ensures root { IfOk result (λ room. room.root ≡ root_of room.world.shared.name 0) }
    ensures none { IfOk result (λ room. room.seats.items ≡ []) }
    ensures room { IfOk result (λ room. count ≤ vec_capacity room.seats) }
    ensures outcomes { IfOk result (λ room. IsRoomFor count room.outcomes) }
{
    let blocks = Arc::new(alloc, build(alloc, rt, workers, &survey)?)?;
    let survey = Arc::new(alloc, survey)?;
    let (shared, root) = Shared::over(alloc, Arc::try_clone(&survey)?, Arc::try_clone(&blocks)?)?;
    let empty = shared_words(alloc);
    let outcomes = Outcomes::with_room(alloc, count)?;
    let seats = Vec::with_capacity(alloc, count as usize)?;
    Ok(Room {
        world: World {
            scene: Scene {
                survey,
                blocks,
                workers,
                empty,
            },
            shared,
        },
        root,
        seats,
        outcomes,
    })
}

/// What the sessions' frames are copied from, so that none fills a list of its own. A refusal of its
/// memory is no answer: frames make their own then.
fn shared_words(alloc: Global) -> EmptyWords {
    match EmptyWords::new(alloc, USUAL_PIXELS) {
        Ok(words) => words,
        Err(OutOfMemory) => EmptyWords::none(alloc),
    }
}

/// Opens all names, and serves the sessions where that is not refused. Their pictures have as many
/// workers as the word of the line says.
fn serve_in<R: Threads + Wait + Sync, D: Desk, B: Beside>(
    alloc: Global,
    rt: &R,
    words: &[String],
    count: u32,
    room: Room<D::In, D::Out>,
    desk: &mut D,
    beside: &B,
) -> Ended
    requires line { IsLine Row.Serve (texts words.now) }
    requires pairs { length words.now ≡ 4 + 2 * count }
    requires some { 1 ≤ count }
    requires few { count ≤ 16 }
    requires world { IsWorld room.world }
    requires workers { number (word_at (texts words.now) (workers_place Row.Serve)) ≡ Some (pos room.world.scene.workers) }
    requires root { room.root ≡ root_of room.world.shared.name 0 }
    requires none { room.seats.items ≡ [] }
    requires room { count ≤ vec_capacity room.seats }
    requires outcomes { IsRoomFor count room.outcomes }
    ensures { ServesIn D.tells (D.says desk.old) (D.says desk.new) (texts words.now) (arc_value room.world.scene.survey) result }
{
    let Room {
        world,
        mut root,
        mut seats,
        outcomes,
    } = room;
    match open_all(
        alloc,
        desk,
        words,
        count,
        &world.shared,
        &mut root,
        &mut seats,
    ) {
        Ok(journal) => {
            serve_all(alloc, rt, &world, beside, seats.as_mut_slice());
            let World { scene: _, shared } = world;
            finish_run(alloc, words, shared, root, seats, outcomes, journal, desk)
        }
        Err(status) => {
            shut_all(desk, words, 0, seats.into_iter());
            Ended::only(alloc, status)
        }
    }
}

/// Shuts and keeps what the sessions read and wrote, and then writes the journal, whatever failed.
fn finish_run<D: Desk>(
    alloc: Global,
    words: &[String],
    shared: Shared,
    mut root: Pass,
    seats: Vec<Seat<D::In, D::Out>>,
    mut outcomes: Outcomes,
    journal: D::Out,
    desk: &mut D,
) -> Ended
    requires pairs { length words.now ≡ 4 + 2 * length seats.items }
    requires some { 1 ≤ length seats.items }
    requires few { length seats.items ≤ 16 }
    requires root { root ≡ root_of shared.name (length seats.items) }
    requires seats { EachFrom (CanFinish (D.says desk.old) (texts words.now) shared.name) 0 seats.items }
    requires outcomes { IsRoomFor (length seats.items) outcomes }
    requires journal { IsUnwritten D.tells (D.Out.got journal) (D.Out.faults journal) }
    requires known { IsKnown (D.says desk.old) (word_at (texts words.now) JOURNAL) }
    ensures { FinishesRun D.tells (D.says desk.old) (D.says desk.new) (texts words.now) seats.items root result }
{
    finish_all(
        desk,
        words,
        0,
        &shared,
        &mut root,
        seats.into_iter(),
        &mut outcomes,
    );
    let history = shared.close(root).into_history();
    let journal = write_journal(
        alloc,
        desk,
        journal_name(words),
        journal,
        history.as_slice(),
    );
    let Outcomes { ends, kept } = outcomes;
    Ended {
        status: status_of(&ends, &kept, journal),
        told: Told {
            history,
            sessions: ends,
            journal,
        },
    }
}
