//! What the proofs know of a pass. No value of a view is made: it takes no bytes.
ghost use Rattle.std.specs.Prelude.{ℕ, List};
ghost use base.Fml.{ftrue};
ghost use base.Stored.{coded×, coded_ℕ, coded_list};

use std::marker::{Model, PhantomData};

/// What a pass has seen and made, and whether it has the turn.
pub(crate) struct View<E> {
    marker: PhantomData<E>,
    /// The number of the pass.
    pub(crate) who: u32,
    /// Whether it has the turn.
    pub(crate) inside: bool,
    /// Whether its caller has the value, and the slot nothing.
    pub(crate) away: bool,
    /// Whether it is the pass that the others were split off from.
    pub(crate) root: bool,
    /// How many passes were split off and not joined back.
    pub(crate) out: u32,
    /// How many passes were split off.
    pub(crate) given: u32,
    /// False for what is left of a pass that was joined.
    pub(crate) live: bool,
    // The beginning of the history that it has seen outside its turns.
    pub(crate) ghost seen: { List E } by { coded_list E.code },
    // The entries that it made.
    pub(crate) ghost mine: { List E } by { coded_list E.code },
    // In a turn, the whole history.
    pub(crate) ghost noted: { List E } by { coded_list E.code },
    // The shorter list of the last join.
    pub(crate) ghost met: { List E } by { coded_list E.code },
    // The number of each pass that was joined, with the entries that it made.
    pub(crate) ghost kept: { List (ℕ × List E) } by { coded_list (coded× coded_ℕ (coded_list E.code)) },
}

impl<E> Model for View<E> {
    ghost also_owns = { λ v. ftrue };
}
