//! Sessions over ends in memory, and the history that they make.
ghost use Rattle.std.specs.Prelude.{◌≡◌, ◌+◌, ◌≤◌, None, [], IfOk, true, false};
ghost use Rattle.version_store.specs.Sharing.{IsOwn};
ghost use Rattle.sessions.specs.Worlds.{IsWorld, HasGivenBack};

use edit_ops::read_edit;
use grid_blocks::build;
use las_survey::{Survey, load};
use min_frame::EmptyWords;
use sessions::{Reason, Scene, World, serve_session};
use std::alloc::Global;
use std::process::Abort;
use std::sync::{Arc, Wait};
use std::test::Fail;
use std::thread::Threads;
use version_store::{Entry, Pass, Shared, What};
use view_base::Bytes;
use view_ends::{MemSink, NoBeside, Places, StillSource};

/// A file of LAS 1.4 with one record of format 0, at (0, 0, 5) in class 2.
fn survey(alloc: Global) -> Result<Survey, Fail> {
    let mut bytes = Bytes::new(alloc);
    bytes.append(b"LASF")?;
    bytes.append(&[0; 20])?;
    bytes.append(&[1, 4])?;
    bytes.append(&[0; 68])?;
    bytes.append(&375u16.to_le_bytes())?;
    bytes.append(&375u32.to_le_bytes())?;
    bytes.append(&[0; 5])?;
    bytes.append(&20u16.to_le_bytes())?;
    bytes.append(&[0; 140])?;
    bytes.append(&1u64.to_le_bytes())?;
    bytes.append(&[0; 120])?;
    bytes.append(&[0, 0, 0, 0, 0, 0, 0, 0, 5, 0, 0, 0, 0, 0, 0, 2, 0, 0, 0, 0])?;
    Ok(load(alloc, &mut StillSource::new(bytes))?)
}

/// A world over that survey, drawn by one worker, and the root pass.
fn world<R: Threads + Sync>(rt: &R, alloc: Global) -> Result<(World, Pass), Fail>
    ensures world { IfOk result (λ r. IsWorld r.0) }
    ensures pass { IfOk result (λ r. r.1 ≡ record {
      gate = r.0.shared.name;
      who = 0;
      seen = [];
      mine = [];
      turn = None;
      root = true;
      out = 0;
      given = 0;
      kept = [];
    }) }
{
    let survey = survey(alloc)?;
    let blocks = Arc::new(alloc, build(alloc, rt, 1, &survey)?)?;
    let survey = Arc::new(alloc, survey)?;
    let (shared, root) = Shared::over(alloc, Arc::try_clone(&survey)?, Arc::try_clone(&blocks)?)?;
    let scene = Scene {
        survey,
        blocks,
        workers: 1,
        empty: EmptyWords::none(alloc),
    };
    Ok((World { scene, shared }, root))
}

/// A session's output fails where it has got so many bytes.
fn failing_sink(alloc: Global, fail_at: Option<u64>) -> Result<MemSink, Fail> {
    let mut places = Places::new(alloc);
    if let Some(at) = fail_at {
        places.push(at)?;
    }
    Ok(MemSink::new(alloc, places))
}

/// What a session is given, and what it has to answer.
struct Turn<'a> {
    input: &'a [u8],
    fail_at: Option<u64>,
    output: &'a [u8],
    marks: &'a [u64],
    reason: Reason,
}

/// Serves a session, which has to answer so.
fn serves<R: Threads + Wait + Abort + Sync>(
    rt: &R,
    alloc: Global,
    world: &World,
    pass: &mut Pass,
    turn: &Turn,
) -> Result<(), Fail>
    requires world { IsWorld world.now }
    requires gate { pass.old.gate ≡ world.now.shared.name }
    requires outside { pass.old.turn ≡ None }
    requires own { IsOwn pass.old }
    requires given_back { HasGivenBack pass.old.seen pass.old.who }
    ensures own { IsOwn pass.new }
    ensures pass { pass.new ≡ record pass.old { seen = pass.new.seen; mine = pass.new.mine } }
    ensures given_back { HasGivenBack pass.new.seen pass.old.who }
{
    let mut input = Bytes::new(alloc);
    input.append(turn.input)?;
    let mut source = StillSource::new(input);
    let mut sink = failing_sink(alloc, turn.fail_at)?;
    let end = serve_session(alloc, rt, world, pass, &mut source, &mut sink, &NoBeside);
    ended(rt, turn, end.marks.as_slice(), end.reason, sink.got());
    Ok(())
}

fn ended(rt: &impl Abort, turn: &Turn, marks: &[u64], reason: Reason, output: &[u8]) {
    assert!(rt; reason == turn.reason);
    assert!(rt; marks == turn.marks);
    assert!(rt; output == turn.output);
}

/// A pass of a caller that has made no entry.
fn new_pass(world: &World, root: &mut Pass) -> Pass
    requires gate { root.old.gate ≡ world.now.shared.name }
    requires root { root.old.root ≡ true }
    requires few { root.old.given ≤ 9 }
    ensures root { root.new ≡ record root.old { out = root.old.out + 1; given = root.old.given + 1 } }
    ensures pass { result ≡ record {
      gate = world.now.shared.name;
      who = root.old.given + 1;
      seen = root.old.seen;
      mine = [];
      turn = None;
      root = false;
      out = 0;
      given = 0;
      kept = [];
    } }
    ensures own { IsOwn result }
    ensures given_back { HasGivenBack result.seen result.who }
{
    world.shared.split(root)
}

/// One session edits, another counts and looks at what it made, and the first goes on.
fn take_turns<R: Threads + Wait + Abort + Sync>(
    rt: &R,
    alloc: Global,
    world: &World,
    one: &mut Pass,
    two: &mut Pass,
) -> Result<(), Fail>
    requires world { IsWorld world.now }
    requires gate { (one.old.gate ≡ world.now.shared.name) × (two.old.gate ≡ world.now.shared.name) }
    requires outside { (one.old.turn ≡ None) × (two.old.turn ≡ None) }
    requires own { IsOwn one.old × IsOwn two.old }
    requires given_back { HasGivenBack one.old.seen one.old.who × HasGivenBack two.old.seen two.old.who }
    ensures one { one.new ≡ record one.old { seen = one.new.seen; mine = one.new.mine } }
    ensures two { two.new ≡ record two.old { seen = two.new.seen; mine = two.new.mine } }
{
    serves(rt, alloc, world, one, &FIRST)?;
    serves(rt, alloc, world, two, &OTHER)?;
    serves(rt, alloc, world, one, &THEN)
}

const FIRST: Turn<'static> = Turn {
    input: b"edit 0 0 0 9 9 9 all 6\n",
    fail_at: None,
    output: b"EDITED 1 1\n",
    marks: &[1],
    reason: Reason::Finished,
};

const OTHER: Turn<'static> = Turn {
    input: b"count 6 show\nview ortho 1 1 0 0 0 1 0 0 0 1 0 0 0 1 1 1 0 10 class all show\n",
    fail_at: None,
    output: b"COUNT 1 1\nPICTURE 1 14\nP6\n1 1\n255\n\xD2\x92\x6E",
    marks: &[1, 1],
    reason: Reason::Finished,
};

const THEN: Turn<'static> = Turn {
    input: b"no\nedit 0 0 0 9 9 9 6 7",
    fail_at: None,
    output: b"REFUSED 1\nEDITED 2 1\n",
    marks: &[0, 2],
    reason: Reason::Finished,
};

#[test]
fn two_sessions_in_turns_make_one_history(rt: HostRuntime) -> Result<(), Fail> {
    let (world, mut root) = world(&rt, rt.alloc())?;
    let mut one = new_pass(&world, &mut root);
    let mut two = new_pass(&world, &mut root);
    take_turns(&rt, rt.alloc(), &world, &mut one, &mut two)?;
    world.shared.join(&mut root, one);
    world.shared.join(&mut root, two);
    let history = world.shared.close(root).into_history();
    has_six(&rt, history.as_slice())
}

fn has_six(rt: &impl Abort, history: &[Entry]) -> Result<(), Fail> {
    let first = What::Publish(read_edit(b"edit 0 0 0 9 9 9 all 6", 0)?);
    let then = What::Publish(read_edit(b"edit 0 0 0 9 9 9 6 7", 0)?);
    let entries = [
        (1, first),
        (2, What::Pin),
        (2, What::Unpin(1)),
        (2, What::Pin),
        (2, What::Unpin(1)),
        (1, then),
    ];
    has(rt, history, &entries);
    Ok(())
}

fn has(rt: &impl Abort, history: &[Entry], entries: &[(u32, What)]) {
    assert!(rt; history.len() == entries.len());
    let same = history.iter().zip(entries.iter()).all(|(got, wanted)| got.who == wanted.0
        && got.what == wanted.1);
    assert!(rt; same);
}

/// A save whose file fails after its head line and two bytes.
const SAVE: Turn<'static> = Turn {
    input: b"save\n",
    fail_at: Some(13),
    output: b"FILE 0 395\nLA",
    marks: &[0],
    reason: Reason::WriteFault,
};

#[test]
fn a_save_that_fails_gives_its_pin_back(rt: HostRuntime) -> Result<(), Fail> {
    let (world, mut root) = world(&rt, rt.alloc())?;
    let mut one = new_pass(&world, &mut root);
    serves(&rt, rt.alloc(), &world, &mut one, &SAVE)?;
    world.shared.join(&mut root, one);
    let history = world.shared.close(root).into_history();
    has(
        &rt,
        history.as_slice(),
        &[(1, What::Pin), (1, What::Unpin(0))],
    );
    Ok(())
}
