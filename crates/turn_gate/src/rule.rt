//! What always holds of a gate's words, of its slot and of what the passes know, and the kinds of
//! its steps.

ghost use Rattle.std.specs.Prelude.{List};

use crate::replayed::Replayed;
use crate::view::View;
use atomic_table::{Join, Play, Split, TableRule};
use std::marker::{Brand, PhantomData};

/// There is one history. It is counted by a word, stands in the value, and is seen by each pass up to
/// some entry; at most one pass has the turn.
pub(crate) struct Rule<S> {
    value: PhantomData<S>,
}

impl<S: Replayed> TableRule<Option<S>, View<S::Entry>, S> for Rule<S> {
    ghost use Rattle.std.specs.Prelude.{◌≡◌};
    ghost use Rattle.turn_gate.specs.Rule.{IsKeptSome};
    ghost use Rattle.turn_gate.specs.Steps.{root_view};

    ghost holds = { λ first s. IsKeptSome (S.replays (S.base first)) S.maker (λ value log. (S.entries value ≡ log) × (S.base value ≡ S.base first)) s.words s.homes s.views };

    ghost first = { λ first. root_view };
}

/// The value that the gate was made with, where the caller of a step names it.
pub(crate) trait Named<S> {
    ghost firsts: { List S };
}

impl<S> Named<S> for Brand {
    ghost use Rattle.std.specs.Prelude.{[]};

    ghost firsts = { [] };
}

/// Entries that the caller of a step picks.
pub(crate) trait More<E> {
    ghost more: { List E };
}

impl<E> More<E> for Brand {
    ghost use Rattle.std.specs.Prelude.{[]};

    ghost more = { [] };
}

/// Takes the turn where no pass has it: a compare-exchange on the turn word, which takes the slot.
pub(crate) struct Enter<S, N> {
    named: PhantomData<(S, N)>,
}

impl<S: Replayed, N: Named<S>> Play<Option<S>, View<S::Entry>> for Enter<S, N> {
    ghost use Rattle.std.specs.Prelude.{◌≡◌};
    ghost use Rattle.turn_gate.specs.Steps.{Enters, OfFirst};

    ghost then = { Enters S.entries S.maker (λ value. OfFirst (λ first. S.base value ≡ S.base first) N.firsts) (λ seen. OfFirst (λ first. S.replays (S.base first) seen) N.firsts) };
}

/// Brings the slot home once the value is out.
pub(crate) struct Empty;

impl<S, E> Play<Option<S>, View<E>> for Empty {
    ghost use Rattle.turn_gate.specs.Steps.{Empties};

    ghost then = { Empties };
}

/// Takes the empty slot, so that the value can go in.
pub(crate) struct Fetch;

impl<S, E> Play<Option<S>, View<E>> for Fetch {
    ghost use Rattle.turn_gate.specs.Steps.{Fetches};

    ghost then = { Fetches };
}

/// Counts entries: an atomic sum on the count word.
pub(crate) struct Count<M> {
    more: PhantomData<M>,
}

impl<S, E, M: More<E>> Play<Option<S>, View<E>> for Count<M> {
    ghost use Rattle.turn_gate.specs.Steps.{Counts};

    ghost then = { Counts M.more };
}

/// Gives the turn back with the value at home: a swap on the turn word.
pub(crate) struct Settle<S> {
    value: PhantomData<S>,
}

impl<S: Replayed> Play<Option<S>, View<S::Entry>> for Settle<S> {
    ghost use Rattle.turn_gate.specs.Steps.{Settles};

    ghost then = { Settles S.maker };
}

/// Changes nothing, and tells what the rule says of the pass.
pub(crate) struct Look<S, N> {
    named: PhantomData<(S, N)>,
}

impl<S: Replayed, N: Named<S>> Play<Option<S>, View<S::Entry>> for Look<S, N> {
    ghost use Rattle.turn_gate.specs.Steps.{Looks, OfFirst};

    ghost then = { Looks (λ seen. OfFirst (λ first. S.replays (S.base first) seen) N.firsts) S.maker };
}

/// Changes no view: a step on the word that counts those who park.
pub(crate) struct Stay;

impl<S, E> Play<Option<S>, View<E>> for Stay {
    ghost use Rattle.turn_gate.specs.Steps.{Stays};

    ghost then = { Stays };
}

/// Splits a pass off, with the next number.
pub(crate) struct Part;

impl<E> Split<View<E>> for Part {
    ghost use Rattle.std.specs.Prelude.{◌+◌};
    ghost use Rattle.turn_gate.specs.Steps.{parted, worker_view};

    ghost left = { λ v. parted v };

    ghost right = { λ v. worker_view (v.given + 1) v.seen };
}

/// Carries what a pass has seen and made over to the root.
pub(crate) struct Merge;

impl<E> Join<View<E>> for Merge {
    ghost use Rattle.turn_gate.specs.Steps.{merged, spent_view};

    ghost both = { merged };

    ghost spent = { spent_view };
}
