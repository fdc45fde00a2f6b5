ghost use Rattle.std.specs.Prelude.{◌≡◌, ℕ, ◌+◌, ◌-◌, ◌^◌, ◌<◌, true, false, [], ◌∷◌, ◌++◌, length, drop, Some, None, IfSome, IfNone};
ghost use mathlib.Core.List.{IsPrefix};
ghost use Rattle.turn_gate.specs.Meaning.{IsSettled, IsTurnOf, counted, made_by, new_pass, with_joined};

use crate::gate::Gate;
use crate::pass::{Pass, Turn};
use crate::replayed::Replayed;
use crate::rule::{Count, Empty, Enter, Fetch, Look, Merge, More, Named, Part, Settle, Stay};
use atomic_table::Badge;
use std::hint::spin_loop;
use std::mem::replace;
use std::snapshot::Snapshot;
use std::sync::Wait;
use std::time::Duration;

/// The word that is 1 while a pass has the turn.
pub(crate) const TURN: usize = 0;

/// The word that counts the entries.
pub(crate) const COUNT: usize = 1;

/// The word that counts those who park.
pub(crate) const PARKED: usize = 2;

/// The slot of the value.
pub(crate) const VALUE: usize = 0;

/// How often a waiter looks at the turn word before it parks.
const SPINS: u32 = 100;

/// How many milliseconds a waiter parks at most before it looks again.
const NAP_MILLIS: u64 = 1;

/// Takes the turn with the value, where no pass has it.
pub(crate) fn take_turn<S: Replayed, N: Named<S>>(
    gate: &Gate<S>,
    pass: &mut Pass<S::Entry>,
) -> Option<(Turn<S::Entry>, S)>
    requires picked { N.firsts ≡ gate.now.first ∷ [] }
    requires gate { pass.old.gate ≡ gate.now.name }
    requires outside { pass.old.turn ≡ None }
    ensures pass { IfSome result (λ r. pass.new ≡ record pass.old { turn = Some (S.entries r.1) }) }
    ensures turn { IfSome result (λ r. r.0 ≡ record { gate = gate.now.name; who = pass.old.who; noted = S.entries r.1 }) }
    ensures base { IfSome result (λ r. S.base r.1 ≡ S.base gate.now.first) }
    ensures seen { IfSome result (λ r. IsPrefix pass.old.seen (S.entries r.1)) }
    ensures own { IfSome result (λ r. made_by S.maker pass.old.who (S.entries r.1) ≡ pass.old.mine) }
    ensures settled { IfSome result (λ r. IsSettled (S.replays (S.base gate.now.first)) S.maker pass.old) }
    ensures lost { IfNone result (pass.new ≡ pass.old) }
{
    let shared = &gate.table.shared;
    let mut seat = replace(&mut pass.badge, Badge::blank()).into_seat();
    if shared.compare_exchange::<Enter<S, N>>(&mut seat, TURN, 0, 1) != 0 {
        pass.badge = seat.into_badge();
        return None;
    }
    let value = shared.exchange(&mut seat, VALUE, None);
    shared.load::<Empty>(&mut seat, TURN);
    pass.badge = seat.into_badge();
    let turn = Turn {
        pass: Snapshot::of(&pass.badge),
    };
    match value {
        Some(value) => Some((turn, value)),
        None => unreachable!(),
    }
}

/// Lets the holder of the turn go on, and returns when the turn may be free.
pub(crate) fn wait<S: Replayed>(gate: &Gate<S>, rt: &impl Wait, pass: &mut Pass<S::Entry>)
    requires gate { pass.old.gate ≡ gate.now.name }
    ensures pass { pass.new ≡ pass.old }
{
    if !spin(gate) {
        park(gate, rt, pass);
    }
}

/// Looks at the turn word for a short time, and says whether it was free.
fn spin<S: Replayed>(gate: &Gate<S>) -> bool {
    for _ in 0..SPINS {
        if gate.table.shared.peek(TURN) == 0 {
            return true;
        }
        spin_loop();
    }
    false
}

/// Parks until the turn is given back, for a bounded time.
fn park<S: Replayed>(gate: &Gate<S>, rt: &impl Wait, pass: &mut Pass<S::Entry>)
    requires gate { pass.old.gate ≡ gate.now.name }
    ensures pass { pass.new ≡ pass.old }
{
    let shared = &gate.table.shared;
    let mut seat = replace(&mut pass.badge, Badge::blank()).into_seat();
    shared.fetch_add::<Stay>(&mut seat, PARKED, 1);
    shared.park_timeout(rt, TURN, 1, Duration::from_millis(NAP_MILLIS));
    shared.fetch_sub::<Stay>(&mut seat, PARKED, 1);
    pass.badge = seat.into_badge();
}

/// Counts the one entry by which the value is longer than the turn's history.
pub(crate) fn count<S: Replayed, M: More<S::Entry>>(
    gate: &Gate<S>,
    pass: &mut Pass<S::Entry>,
    turn: &mut Turn<S::Entry>,
    value: &S,
)
    requires picked { M.more ≡ drop (length turn.old.noted) (S.entries value.now) }
    requires gate { pass.old.gate ≡ gate.now.name }
    requires turn { IsTurnOf turn.old pass.old }
    requires entry { (e : S.Entry) × (S.entries value.now ≡ turn.old.noted ++ e ∷ []) × (S.maker e ≡ pass.old.who) }
    requires count { length (S.entries value.now) < 2 ^ 64 }
    ensures pass { pass.new ≡ counted pass.old turn.old.noted (S.entries value.now) }
    ensures turn { turn.new ≡ record turn.old { noted = S.entries value.now } }
{
    let _ = value;
    let mut seat = replace(&mut pass.badge, Badge::blank()).into_seat();
    gate.table.shared.fetch_add::<Count<M>>(&mut seat, COUNT, 1);
    pass.badge = seat.into_badge();
    turn.pass = Snapshot::of(&pass.badge);
}

/// Puts the value into the slot and gives the turn back.
pub(crate) fn give_turn<S: Replayed>(gate: &Gate<S>, pass: &mut Pass<S::Entry>, value: S)
    requires gate { pass.old.gate ≡ gate.now.name }
    requires turn { pass.old.turn ≡ Some (S.entries value) }
    requires base { S.base value ≡ S.base gate.now.first }
    requires legal { S.replays (S.base gate.now.first) (S.entries value) }
    ensures pass { pass.new ≡ record pass.old { seen = S.entries value; turn = None } }
    ensures own { made_by S.maker pass.old.who (S.entries value) ≡ pass.old.mine }
{
    let shared = &gate.table.shared;
    let mut seat = replace(&mut pass.badge, Badge::blank()).into_seat();
    shared.load::<Fetch>(&mut seat, TURN);
    match shared.exchange(&mut seat, VALUE, Some(value)) {
        None => {}
        Some(_) => unreachable!(),
    }
    shared.swap::<Settle<S>>(&mut seat, TURN, 0);
    pass.badge = seat.into_badge();
}

/// Wakes one of those who park, where there is one.
pub(crate) fn wake<S: Replayed>(gate: &Gate<S>) {
    let shared = &gate.table.shared;
    if shared.peek(PARKED) > 0 {
        shared.wake_one(TURN);
    }
}

/// Splits a pass off, with the next number.
pub(crate) fn part<S: Replayed, N: Named<S>>(
    gate: &Gate<S>,
    root: &mut Pass<S::Entry>,
) -> Pass<S::Entry>
    requires picked { N.firsts ≡ gate.now.first ∷ [] }
    requires gate { root.old.gate ≡ gate.now.name }
    requires root { root.old.root ≡ true }
    requires given { root.old.given < 2 ^ 32 - 1 }
    ensures root { root.new ≡ record root.old { out = root.old.out + 1; given = root.old.given + 1 } }
    ensures pass { result ≡ new_pass gate.now.name (root.old.given + 1) root.old.seen }
    ensures settled { IsSettled (S.replays (S.base gate.now.first)) S.maker result }
{
    let shared = &gate.table.shared;
    let mut seat = replace(&mut root.badge, Badge::blank()).into_seat();
    let mut worker = shared.split_seat::<Part>(&mut seat);
    shared.load::<Look<S, N>>(&mut worker, TURN);
    root.badge = seat.into_badge();
    root.given += 1;
    Pass {
        who: root.given,
        given: 0,
        badge: worker.into_badge(),
    }
}

/// Carries what a pass has seen and made over to the root.
pub(crate) fn merge<S: Replayed, N: Named<S>>(
    gate: &Gate<S>,
    root: &mut Pass<S::Entry>,
    pass: Pass<S::Entry>,
)
    requires picked { N.firsts ≡ gate.now.first ∷ [] }
    requires gate { (root.old.gate ≡ gate.now.name) × (pass.gate ≡ gate.now.name) }
    requires root { (root.old.root ≡ true) × (pass.root ≡ false) }
    requires outside { (root.old.turn ≡ None) × (pass.turn ≡ None) }
    ensures root { root.new ≡ with_joined root.old pass }
    ensures seen { IsPrefix root.old.seen root.new.seen × IsPrefix pass.seen root.new.seen }
    ensures settled { IsSettled (S.replays (S.base gate.now.first)) S.maker root.new }
{
    let shared = &gate.table.shared;
    let mut seat = replace(&mut root.badge, Badge::blank()).into_seat();
    let Pass { badge, .. } = pass;
    shared.join_seat::<Merge>(&mut seat, badge.into_seat());
    shared.load::<Look<S, N>>(&mut seat, TURN);
    root.badge = seat.into_badge();
}
