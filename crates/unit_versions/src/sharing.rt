ghost use Rattle.std.specs.Prelude.{◌≡◌, true, None};
ghost use Rattle.version_store.specs.Sharing.{IsOwn};

use crate::surveys::survey;
use class_pages::Classes;
use edit_ops::{Edit, applies, read_edit};
use std::alloc::Global;
use std::process::Abort;
use std::sync::{Arc, Wait};
use std::test::Fail;
use std::thread::{Threads, join_mut};
use version_store::{Entry, Pass, Shared, What};
use view_base::Point;

/// How many rounds each thread makes: an edit, a pin, and the pin given back.
const ROUNDS: usize = 250;

/// What the calls of a round answered.
#[derive(Clone, Copy, PartialEq)]
struct Round {
    /// The version that the edit made, and how many classes it changed.
    published: (u64, u64),
    /// The version that was pinned, and the class of the one record in it.
    pinned: (u64, u8),
}

#[test]
fn two_callers_publish_and_pin(rt: HostRuntime) -> Result<(), Fail> {
    let edit = read_edit(b"edit 0 0 0 9 9 9 all 6", 0)?;
    let (shared, mut root) = Shared::new(rt.alloc(), Arc::new(rt.alloc(), survey(rt.alloc())?)?)?;
    in_two(&rt, &shared, &mut root, &edit);
    let history = shared.close(root).into_history();
    has_three(&rt, history.as_slice(), edit);
    Ok(())
}

/// One caller publishes, and then another pins and gives the pin back.
fn in_two<R: Wait + Abort>(rt: &R, shared: &Shared, root: &mut Pass, edit: &Edit)
    requires gate { root.old.gate ≡ shared.now.name }
    requires root { root.old.root ≡ true }
    requires given { root.old.given ≡ 0 }
    requires outside { root.old.turn ≡ None }
    ensures root { root.new ≡ record root.old { seen = root.new.seen; given = root.new.given; kept = root.new.kept } }
{
    let mut one = shared.split(root);
    let mut two = shared.split(root);
    publish_and_pin(rt, shared, &mut one, &mut two, edit);
    shared.join(root, one);
    shared.join(root, two);
}

fn publish_and_pin<R: Wait + Abort>(
    rt: &R,
    shared: &Shared,
    one: &mut Pass,
    two: &mut Pass,
    edit: &Edit,
)
    requires gate { (one.old.gate ≡ shared.now.name) × (two.old.gate ≡ shared.now.name) }
    requires own { IsOwn two.old }
    requires outside { (one.old.turn ≡ None) × (two.old.turn ≡ None) }
    ensures one { one.new ≡ record one.old { seen = one.new.seen; mine = one.new.mine } }
    ensures two { two.new ≡ record two.old { seen = two.new.seen; mine = two.new.mine } }
{
    let published = publish(rt, shared, one, edit);
    let pinned = pin_and_unpin(rt, shared, two);
    assert!(rt; published == (1, 1) && pinned == (1, 6));
}

fn has_three(rt: &impl Abort, history: &[Entry], edit: Edit) {
    let entries = [
        Entry {
            who: 1,
            what: What::Publish(edit),
        },
        Entry {
            who: 2,
            what: What::Pin,
        },
        Entry {
            who: 2,
            what: What::Unpin(1),
        },
    ];
    assert!(rt; history == entries.as_slice());
}

/// Publishes an edit.
fn publish<R: Wait + Abort>(rt: &R, shared: &Shared, pass: &mut Pass, edit: &Edit) -> (u64, u64)
    requires gate { pass.old.gate ≡ shared.now.name }
    requires outside { pass.old.turn ≡ None }
    ensures pass { pass.new ≡ record pass.old { seen = pass.new.seen; mine = pass.new.mine } }
    ensures own { IsOwn pass.new }
{
    assert!(rt; edit.to <= 31);
    shared.publish(rt, pass, edit).expect(rt, "memory")
}

/// Pins the newest version and gives the pin back. Gives the version and the record's class.
fn pin_and_unpin<R: Wait + Abort>(rt: &R, shared: &Shared, pass: &mut Pass) -> (u64, u8)
    requires gate { pass.old.gate ≡ shared.now.name }
    requires outside { pass.old.turn ≡ None }
    requires own { IsOwn pass.old }
    ensures pass { pass.new ≡ record pass.old { seen = pass.new.seen; mine = pass.new.mine } }
{
    let pin = shared.pin(rt, pass).expect(rt, "memory");
    let found = (pin.version(), first_class(pin.classes()));
    shared.unpin(rt, pass, pin);
    found
}

/// The class of the first record.
fn first_class(classes: &Classes) -> u8 {
    if classes.len() == 0 {
        return 0;
    }
    classes.class_at(0)
}

/// What the threads were told.
type Rounds = ((Vec<Round>, Vec<Round>), (Vec<Round>, Vec<Round>));

/// Each thread's edit applies or not by what the others' edits made of the record.
#[test]
fn four_threads_find_their_calls_in_one_history(rt: HostRuntime) -> Result<(), Fail> {
    let low = read_edit(b"edit 0 0 0 9 9 9 0-15 17", 0)?;
    let high = read_edit(b"edit 0 0 0 9 9 9 16-31 4", 0)?;
    let (shared, mut root) = Shared::new(rt.alloc(), Arc::new(rt.alloc(), survey(rt.alloc())?)?)?;
    let rounds = in_four(&rt, rt.alloc(), &shared, &low, &high, &mut root);
    let history = shared.close(root).into_history();
    tells_all(&rt, history.as_slice(), &rounds);
    Ok(())
}

fn tells_all(rt: &impl Abort, history: &[Entry], rounds: &Rounds) {
    tells(rt, history, 1, rounds.0.0.as_slice());
    tells(rt, history, 2, rounds.0.1.as_slice());
    tells(rt, history, 3, rounds.1.0.as_slice());
    tells(rt, history, 4, rounds.1.1.as_slice());
}

/// Splits four passes off, runs each in a thread of its own, and joins them.
fn in_four<R: Threads + Wait + Abort + Sync>(
    rt: &R,
    alloc: Global,
    shared: &Shared,
    low: &Edit,
    high: &Edit,
    root: &mut Pass,
) -> Rounds
    requires gate { root.old.gate ≡ shared.now.name }
    requires root { root.old.root ≡ true }
    requires given { root.old.given ≡ 0 }
    requires outside { root.old.turn ≡ None }
    ensures root { root.new ≡ record root.old { seen = root.new.seen; given = root.new.given; kept = root.new.kept } }
{
    let mut one = shared.split(root);
    let mut two = shared.split(root);
    let mut three = shared.split(root);
    let mut four = shared.split(root);
    let rounds = run_four(
        rt, alloc, shared, low, high, &mut one, &mut two, &mut three, &mut four,
    );
    shared.join(root, one);
    shared.join(root, two);
    shared.join(root, three);
    shared.join(root, four);
    rounds
}

/// Four threads at once, of which two and two have one edit.
fn run_four<R: Threads + Wait + Abort + Sync>(
    rt: &R,
    alloc: Global,
    shared: &Shared,
    low: &Edit,
    high: &Edit,
    one: &mut Pass,
    two: &mut Pass,
    three: &mut Pass,
    four: &mut Pass,
) -> Rounds
    requires first { (one.old.gate ≡ shared.now.name) × (two.old.gate ≡ shared.now.name) }
    requires second { (three.old.gate ≡ shared.now.name) × (four.old.gate ≡ shared.now.name) }
    requires outside { (one.old.turn ≡ None) × (two.old.turn ≡ None) }
    requires free { (three.old.turn ≡ None) × (four.old.turn ≡ None) }
    ensures one { one.new ≡ record one.old { seen = one.new.seen; mine = one.new.mine } }
    ensures two { two.new ≡ record two.old { seen = two.new.seen; mine = two.new.mine } }
    ensures three { three.new ≡ record three.old { seen = three.new.seen; mine = three.new.mine } }
    ensures four { four.new ≡ record four.old { seen = four.new.seen; mine = four.new.mine } }
{
    join_mut(
        rt,
        &mut ||
            requires gate { (one.now.gate ≡ shared.now.name) × (two.now.gate ≡ shared.now.name) }
            requires outside { (one.now.turn ≡ None) × (two.now.turn ≡ None) }
        { run_two(rt, alloc, shared, low, high, one, two) },
        &mut ||
            requires gate { (three.now.gate ≡ shared.now.name) × (four.now.gate ≡ shared.now.name) }
            requires outside { (three.now.turn ≡ None) × (four.now.turn ≡ None) }
        { run_two(rt, alloc, shared, low, high, three, four) },
    )
}

/// Two threads at once, each with an edit of its own.
fn run_two<R: Threads + Wait + Abort + Sync>(
    rt: &R,
    alloc: Global,
    shared: &Shared,
    low: &Edit,
    high: &Edit,
    one: &mut Pass,
    two: &mut Pass,
) -> (Vec<Round>, Vec<Round>)
    requires gate { (one.old.gate ≡ shared.now.name) × (two.old.gate ≡ shared.now.name) }
    requires outside { (one.old.turn ≡ None) × (two.old.turn ≡ None) }
    ensures one { one.new ≡ record one.old { seen = one.new.seen; mine = one.new.mine } }
    ensures two { two.new ≡ record two.old { seen = two.new.seen; mine = two.new.mine } }
{
    join_mut(
        rt,
        &mut || run(rt, alloc, shared, one, low),
        &mut || run(rt, alloc, shared, two, high),
    )
}

/// The rounds of one thread.
fn run<R: Wait + Abort>(
    rt: &R,
    alloc: Global,
    shared: &Shared,
    pass: &mut Pass,
    edit: &Edit,
) -> Vec<Round>
    requires gate { pass.old.gate ≡ shared.now.name }
    requires outside { pass.old.turn ≡ None }
    ensures pass { pass.new ≡ record pass.old { seen = pass.new.seen; mine = pass.new.mine } }
{
    let mut rounds = Vec::new(alloc);
    for _ in 0..ROUNDS {
        let published = publish(rt, shared, pass, edit);
        let pinned = pin_and_unpin(rt, shared, pass);
        rounds
            .push(Round { published, pinned })
            .expect(rt, "memory");
    }
    rounds
}

fn tells(rt: &impl Abort, history: &[Entry], who: u32, rounds: &[Round]) {
    assert!(rt; is_told(history, who, rounds));
}

/// Whether a caller's entries are its rounds in order, and each was told what stands at its place
/// in the history.
fn is_told(history: &[Entry], who: u32, rounds: &[Round]) -> bool {
    let mut version = 0u64;
    let mut class = 2u8;
    let mut calls = 0usize;
    for entry in history {
        let before = class;
        if let What::Publish(edit) = entry.what {
            version = version.saturating_add(1);
            class = class_after(&edit, class);
        }
        if entry.who == who {
            let told = Round {
                published: (version, u64::from(class != before)),
                pinned: (version, class),
            };
            if !fits(entry.what, calls, told, rounds) {
                return false;
            }
            calls = calls.saturating_add(1);
        }
    }
    calls == 3 * ROUNDS
}

/// The record's class after an edit.
fn class_after(edit: &Edit, class: u8) -> u8 {
    if applies(edit, Point { x: 0, y: 0, z: 5 }, class) {
        edit.to
    } else {
        class
    }
}

/// Whether this entry is the call of its round that comes so late, and was told this.
fn fits(what: What, calls: usize, told: Round, rounds: &[Round]) -> bool {
    let Some(round) = rounds.get(calls / 3) else {
        return false;
    };
    match what {
        What::Publish(_) => calls % 3 == 0 && round.published == told.published,
        What::Pin => calls % 3 == 1 && round.pinned == told.pinned,
        What::Unpin(version) => calls % 3 == 2 && round.pinned.0 == version,
    }
}
