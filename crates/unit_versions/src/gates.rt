ghost use Rattle.std.specs.Prelude.{◌≡◌, ◌+◌, ◌≤◌, ◌<◌, ◌^◌, true, false, [], ◌∷◌, ◌++◌, None, Some};
ghost use Rattle.turn_gate.specs.Meaning.{IsTurnOf};

use crate::tape::Tape;
use std::process::Abort;
use std::sync::Wait;
use std::test::Fail;
use std::thread::{Threads, join_mut};
use turn_gate::{Gate, Turn};

type Pass = turn_gate::Pass<(u32, u32)>;

/// How many turns each thread takes.
const TURNS: u32 = 10_000;

/// Makes and notes one entry of the pass.
fn add<R: Abort>(
    rt: &R,
    gate: &Gate<Tape>,
    pass: &mut Pass,
    turn: &mut Turn<(u32, u32)>,
    tape: &mut Tape,
    number: u32,
)
    requires gate { pass.old.gate ≡ gate.now.name }
    requires turn { IsTurnOf turn.old pass.old }
    requires tape { tape.old ≡ turn.old.noted }
    ensures tape { tape.new ≡ tape.old ++ (pass.old.who, number) ∷ [] }
    ensures pass { pass.new ≡ record pass.old { mine = pass.old.mine ++ (pass.old.who, number) ∷ []; turn = Some tape.new } }
    ensures turn { turn.new ≡ record turn.old { noted = tape.new } }
{
    tape.push(rt, pass.who(), number);
    gate.note(pass, turn, tape);
}

/// One entry in one turn. Gives how many entries there were before it.
fn add_in_turn<R: Wait + Abort>(rt: &R, gate: &Gate<Tape>, pass: &mut Pass, number: u32) -> usize
    requires gate { pass.old.gate ≡ gate.now.name }
    requires outside { pass.old.turn ≡ None }
    ensures pass { pass.new ≡ record pass.old { seen = pass.new.seen; mine = pass.new.mine } }
{
    let (mut turn, mut tape) = gate.enter(rt, pass);
    let found = tape.as_slice().len();
    add(rt, gate, pass, &mut turn, &mut tape, number);
    gate.leave(pass, turn, tape);
    found
}

/// Two entries in one turn.
fn add_two<R: Wait + Abort>(rt: &R, gate: &Gate<Tape>, pass: &mut Pass)
    requires gate { pass.old.gate ≡ gate.now.name }
    requires outside { pass.old.turn ≡ None }
    ensures pass { pass.new ≡ record pass.old { seen = pass.new.seen; mine = pass.new.mine } }
{
    let (mut turn, mut tape) = gate.enter(rt, pass);
    add(rt, gate, pass, &mut turn, &mut tape, 20);
    add(rt, gate, pass, &mut turn, &mut tape, 21);
    gate.leave(pass, turn, tape);
}

/// Two passes take turns, each of which finds the other's entries.
fn alternate<R: Wait + Abort>(rt: &R, gate: &Gate<Tape>, one: &mut Pass, two: &mut Pass)
    requires gate { (one.old.gate ≡ gate.now.name) × (two.old.gate ≡ gate.now.name) }
    requires outside { (one.old.turn ≡ None) × (two.old.turn ≡ None) }
    ensures one { one.new ≡ record one.old { seen = one.new.seen; mine = one.new.mine } }
    ensures two { two.new ≡ record two.old { seen = two.new.seen; mine = two.new.mine } }
{
    let numbers = [one.who(), two.who()];
    let first = add_in_turn(rt, gate, one, 10);
    add_two(rt, gate, two);
    let last = add_in_turn(rt, gate, one, 11);
    assert!(rt; numbers == [1, 2] && [first, last] == [0, 3]);
}

/// Splits two passes off, lets them take turns, and joins them.
fn in_two<R: Wait + Abort>(rt: &R, gate: &Gate<Tape>, root: &mut Pass)
    requires gate { root.old.gate ≡ gate.now.name }
    requires root { root.old.root ≡ true }
    requires given { root.old.given ≡ 0 }
    requires outside { root.old.turn ≡ None }
    ensures root { root.new ≡ record root.old { seen = root.new.seen; given = root.new.given; kept = root.new.kept } }
{
    let mut one = gate.split(root);
    let mut two = gate.split(root);
    alternate(rt, gate, &mut one, &mut two);
    gate.join(root, one);
    gate.join(root, two);
}

fn holds(rt: &impl Abort, tape: &Tape, wanted: &[(u32, u32)]) {
    assert!(rt; tape.as_slice() == wanted);
}

#[test]
fn two_passes_find_each_others_entries(rt: HostRuntime) -> Result<(), Fail> {
    let Ok((gate, mut root)) = Gate::new(rt.alloc(), Tape::new(rt.alloc())) else {
        return Err("memory".into());
    };
    in_two(&rt, &gate, &mut root);
    let tape = gate.close(root);
    holds(&rt, &tape, &[(1, 10), (2, 20), (2, 21), (1, 11)]);
    Ok(())
}

#[test]
fn a_new_gate_closes_with_the_value_that_it_was_given(rt: HostRuntime) -> Result<(), Fail> {
    let Ok((gate, root)) = Gate::new(rt.alloc(), Tape::new(rt.alloc())) else {
        return Err("memory".into());
    };
    let tape = gate.close(root);
    holds(&rt, &tape, &[]);
    Ok(())
}

/// Takes turns, and makes one entry in each, with the numbers from 0 on.
fn take_turns<R: Wait + Abort>(rt: &R, gate: &Gate<Tape>, pass: &mut Pass)
    requires gate { pass.old.gate ≡ gate.now.name }
    requires outside { pass.old.turn ≡ None }
    ensures pass { pass.new ≡ record pass.old { seen = pass.new.seen; mine = pass.new.mine } }
{
    for number in 0..TURNS {
        add_in_turn(rt, gate, pass, number);
    }
}

/// Two threads at once.
fn run_two<R: Threads + Wait + Abort + Sync>(
    rt: &R,
    gate: &Gate<Tape>,
    one: &mut Pass,
    two: &mut Pass,
)
    requires gate { (one.old.gate ≡ gate.now.name) × (two.old.gate ≡ gate.now.name) }
    requires outside { (one.old.turn ≡ None) × (two.old.turn ≡ None) }
    ensures one { one.new ≡ record one.old { seen = one.new.seen; mine = one.new.mine } }
    ensures two { two.new ≡ record two.old { seen = two.new.seen; mine = two.new.mine } }
{
    join_mut(
        rt,
        &mut || take_turns(rt, gate, one),
        &mut || take_turns(rt, gate, two),
    );
}

/// Four threads at once.
fn run_four<R: Threads + Wait + Abort + Sync>(
    rt: &R,
    gate: &Gate<Tape>,
    one: &mut Pass,
    two: &mut Pass,
    three: &mut Pass,
    four: &mut Pass,
)
    requires first { (one.old.gate ≡ gate.now.name) × (two.old.gate ≡ gate.now.name) }
    requires second { (three.old.gate ≡ gate.now.name) × (four.old.gate ≡ gate.now.name) }
    requires outside { (one.old.turn ≡ None) × (two.old.turn ≡ None) }
    requires free { (three.old.turn ≡ None) × (four.old.turn ≡ None) }
    ensures one { one.new ≡ record one.old { seen = one.new.seen; mine = one.new.mine } }
    ensures two { two.new ≡ record two.old { seen = two.new.seen; mine = two.new.mine } }
    ensures three { three.new ≡ record three.old { seen = three.new.seen; mine = three.new.mine } }
    ensures four { four.new ≡ record four.old { seen = four.new.seen; mine = four.new.mine } }
{
    join_mut(
        rt,
        &mut ||
            requires gate { (one.now.gate ≡ gate.now.name) × (two.now.gate ≡ gate.now.name) }
            requires outside { (one.now.turn ≡ None) × (two.now.turn ≡ None) }
        { run_two(rt, gate, one, two) },
        &mut ||
            requires gate { (three.now.gate ≡ gate.now.name) × (four.now.gate ≡ gate.now.name) }
            requires outside { (three.now.turn ≡ None) × (four.now.turn ≡ None) }
        { run_two(rt, gate, three, four) },
    );
}

/// Splits four passes off, runs each in a thread of its own, and joins them.
fn in_four<R: Threads + Wait + Abort + Sync>(rt: &R, gate: &Gate<Tape>, root: &mut Pass)
    requires gate { root.old.gate ≡ gate.now.name }
    requires root { root.old.root ≡ true }
    requires given { root.old.given ≡ 0 }
    requires outside { root.old.turn ≡ None }
    ensures root { root.new ≡ record root.old { seen = root.new.seen; given = root.new.given; kept = root.new.kept } }
{
    let mut one = gate.split(root);
    let mut two = gate.split(root);
    let mut three = gate.split(root);
    let mut four = gate.split(root);
    run_four(rt, gate, &mut one, &mut two, &mut three, &mut four);
    gate.join(root, one);
    gate.join(root, two);
    gate.join(root, three);
    gate.join(root, four);
}

fn lost_none(rt: &impl Abort, tape: &Tape) {
    assert!(rt; tape.as_slice().len() == 4 * TURNS as usize);
    for who in 1..=4 {
        assert!(rt; tape.is_whole(who, TURNS));
    }
}

#[test]
fn four_threads_lose_no_entry(rt: HostRuntime) -> Result<(), Fail> {
    let Ok((gate, mut root)) = Gate::new(rt.alloc(), Tape::new(rt.alloc())) else {
        return Err("memory".into());
    };
    in_four(&rt, &gate, &mut root);
    let tape = gate.close(root);
    lost_none(&rt, &tape);
    Ok(())
}
