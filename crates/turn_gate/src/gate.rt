ghost use Rattle.std.specs.Prelude.{◌≡◌, ℕ, ◌+◌, ◌-◌, ◌^◌, ◌<◌, ◌⊎◌, true, false, [], ◌∷◌, ◌++◌, length, drop, map, All, Contains, Some, None, IfOk, IfErr};
ghost use mathlib.Core.List.{IsPrefix};
ghost use Rattle.turn_gate.specs.Meaning.{IsSettled, IsTurnOf, counted, made_by, new_pass, root_pass, with_joined};

use crate::pass::{Pass, Turn};
use crate::replayed::Replayed;
use crate::rule::Rule;
use crate::turns::{self, VALUE};
use crate::view::View;
use atomic_table::Table;
use std::alloc::Global;
use std::marker::{Brand, Model};
use std::snapshot::Snapshot;
use std::sync::Wait;
use view_base::OutOfMemory;

/// One value that callers share by `&` and change in turns.
#[derive(Drop)]
pub struct Gate<S: Replayed> {
    pub(crate) table: Table<Option<S>, View<S::Entry>, S, Rule<S>, Global>,
}

impl<S: Replayed> Model for Gate<S> {
    ghost use Rattle.std.specs.Prelude.{◌≡◌};
    ghost use Rattle.turn_gate.specs.Meaning.{Gated};

    ghost Value = { Gated S };

    ghost view = { λ g. record { name = g.table.shared.table_id; first = g.table.shared.key } };

    ghost invariant = { λ g. (g.table.shared.table_id.words ≡ 3) × (g.table.shared.table_id.slots ≡ 1) };
}

impl<S: Replayed> Gate<S> {
    /// A gate before a value without entries, and its root pass. The refusal is want of memory, and
    /// hands the value back.
    pub fn new(alloc: Global, value: S) -> Result<(Gate<S>, Pass<S::Entry>), (OutOfMemory, S)>
        requires entries { S.entries value ≡ [] }
        ensures gate { IfOk result (λ r. r.0.first ≡ value) }
        ensures pass { IfOk result (λ r. r.1 ≡ root_pass r.0.name) }
        ensures settled { IfOk result (λ r. IsSettled (S.replays (S.base value)) S.maker r.1) }
        ensures refused { IfErr result (λ r. r.1 ≡ value) }
    {
        value.tell();
        let Ok((table, seat)) = Table::vacant(alloc, &[1, 0, 0], 1, &value) else {
            return Err((OutOfMemory, value));
        };
        let gate = Gate { table };
        let mut pass = Pass {
            who: 0,
            given: 0,
            badge: seat.into_badge(),
        };
        let turn = Turn {
            pass: Snapshot::of(&pass.badge),
        };
        gate.leave(&mut pass, turn, value);
        Ok((gate, pass))
    }

    /// Waits for the turn and takes it, with the value. The turn and the value must be given back by
    /// `leave`. It spins for a short time, then parks for bounded times.
    pub fn enter(&self, rt: &impl Wait, pass: &mut Pass<S::Entry>) -> (Turn<S::Entry>, S)
        requires gate { pass.old.gate ≡ self.now.name }
        requires outside { pass.old.turn ≡ None }
        ensures pass { pass.new ≡ record pass.old { turn = Some (S.entries result.1) } }
        ensures turn { result.0 ≡ record { gate = self.now.name; who = pass.old.who; noted = S.entries result.1 } }
        ensures base { S.base result.1 ≡ S.base self.now.first }
        ensures seen { IsPrefix pass.old.seen (S.entries result.1) }
        ensures own { made_by S.maker pass.old.who (S.entries result.1) ≡ pass.old.mine }
        ensures settled { IsSettled (S.replays (S.base self.now.first)) S.maker pass.old }
    {
        for _ in rt.forever() {
            if let Some(found) = turns::take_turn::<S, Brand>(self, pass) {
                return found;
            }
            turns::wait(self, rt, pass);
        }
        unreachable!()
    }

    /// Counts one new entry: `value` has just one more than the turn, by this pass. Takes no memory.
    pub fn note(&self, pass: &mut Pass<S::Entry>, turn: &mut Turn<S::Entry>, value: &S)
        requires gate { pass.old.gate ≡ self.now.name }
        requires turn { IsTurnOf turn.old pass.old }
        requires entry { (e : S.Entry) × (S.entries value.now ≡ turn.old.noted ++ e ∷ []) × (S.maker e ≡ pass.old.who) }
        requires count { length (S.entries value.now) < 2 ^ 64 }
        ensures pass { pass.new ≡ counted pass.old turn.old.noted (S.entries value.now) }
        ensures turn { turn.new ≡ record turn.old { noted = S.entries value.now } }
    {
        turns::count::<S, Brand>(self, pass, turn, value);
    }

    /// Gives the turn back, with the value and all its entries noted. The pass has then seen them.
    /// Takes no memory, and makes no system call where nobody parks.
    pub fn leave(&self, pass: &mut Pass<S::Entry>, turn: Turn<S::Entry>, value: S)
        requires gate { pass.old.gate ≡ self.now.name }
        requires turn { IsTurnOf turn pass.old }
        requires entries { S.entries value ≡ turn.noted }
        requires base { S.base value ≡ S.base self.now.first }
        ensures pass { pass.new ≡ record pass.old { seen = S.entries value; turn = None } }
        ensures settled { IsSettled (S.replays (S.base self.now.first)) S.maker pass.new }
    {
        let Turn { pass: _ } = turn;
        value.tell();
        turns::give_turn(self, pass, value);
        turns::wake(self);
    }

    /// A new pass with the next number, which has seen what the root has seen and has made nothing.
    /// Takes no memory.
    pub fn split(&self, root: &mut Pass<S::Entry>) -> Pass<S::Entry>
        requires gate { root.old.gate ≡ self.now.name }
        requires root { root.old.root ≡ true }
        requires given { root.old.given < 2 ^ 32 - 1 }
        ensures root { root.new ≡ record root.old { out = root.old.out + 1; given = root.old.given + 1 } }
        ensures pass { result ≡ new_pass self.now.name (root.old.given + 1) root.old.seen }
        ensures settled { IsSettled (S.replays (S.base self.now.first)) S.maker result }
    {
        turns::part::<S, Brand>(self, root)
    }

    /// Takes a pass back. The root has then seen the longer of the two lists, of which the other is a
    /// beginning, and keeps the pass's number with the entries that it made. Takes no memory.
    pub fn join(&self, root: &mut Pass<S::Entry>, pass: Pass<S::Entry>)
        requires gate { (root.old.gate ≡ self.now.name) × (pass.gate ≡ self.now.name) }
        requires root { (root.old.root ≡ true) × (pass.root ≡ false) }
        requires outside { (root.old.turn ≡ None) × (pass.turn ≡ None) }
        ensures root { root.new ≡ with_joined root.old pass }
        ensures seen { IsPrefix root.old.seen root.new.seen × IsPrefix pass.seen root.new.seen }
        ensures settled { IsSettled (S.replays (S.base self.now.first)) S.maker root.new }
    {
        turns::merge::<S, Brand>(self, root, pass);
    }

    /// The value, once every pass is joined. Its entries are what the root has seen. Takes no memory.
    pub fn close(self, root: Pass<S::Entry>) -> S
        requires gate { root.gate ≡ self.name }
        requires root { root.root ≡ true }
        requires out { root.out ≡ 0 }
        requires outside { root.turn ≡ None }
        ensures base { S.base result ≡ S.base self.first }
        ensures entries { S.entries result ≡ root.seen }
        ensures settled { IsSettled (S.replays (S.base self.first)) S.maker root }
        ensures makers { All (λ e. (S.maker e ≡ 0) ⊎ Contains (map (λ k. k.0) root.kept) (S.maker e)) root.seen }
        ensures kept { All (λ k. made_by S.maker k.0 root.seen ≡ k.1) root.kept }
    {
        let mut closed = self.table.close_with(root.badge.into_seat());
        let value = closed.take(VALUE);
        closed.free();
        match value {
            Some(value) => value,
            None => unreachable!(),
        }
    }
}
