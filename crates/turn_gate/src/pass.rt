ghost use Rattle.std.specs.Prelude.{◌≡◌};

use crate::view::View;
use atomic_table::Badge;
use std::marker::Model;
use std::snapshot::Snapshot;

/// A caller's right to take turns at one gate. Contracts see what the caller has seen of the history
/// and which entries it made; at run time there is only the number. A gate with a lost pass can't be
/// closed.
#[derive(Drop)]
pub struct Pass<E> {
    pub(crate) who: u32,
    pub(crate) given: u32,
    pub(crate) badge: Badge<View<E>>,
}

impl<E> Model for Pass<E> {
    ghost use Rattle.std.specs.Prelude.{◌≡◌, true, [], ◌∷◌};
    ghost use Rattle.turn_gate.specs.Meaning.{Passed};
    ghost use Rattle.turn_gate.specs.Steps.{passed, view_of};

    ghost Value = { Passed E };

    ghost view = { λ p. passed p.badge.table_id (view_of p.badge.views) };

    ghost invariant = { λ p. (p.badge.views ≡ view_of p.badge.views ∷ []) × ((view_of p.badge.views).live ≡ true) × ((view_of p.badge.views).away ≡ (view_of p.badge.views).inside) × ((view_of p.badge.views).who ≡ p.who) × ((view_of p.badge.views).given ≡ p.given) };
}

impl<E> Pass<E> {
    /// The number of the pass: 0 for the root, and 1, 2, 3 in the order in which the others were
    /// split off.
    pub fn who(&self) -> u32
        ensures { result ≡ self.now.who }
    {
        self.who
    }
}

/// The turn of a pass, in which its caller has the value. It must be given back by `leave`.
pub struct Turn<E> {
    pub(crate) pass: Snapshot<Badge<View<E>>>,
}

impl<E> Model for Turn<E> {
    ghost use Rattle.turn_gate.specs.Meaning.{Turned};
    ghost use Rattle.turn_gate.specs.Steps.{turned, view_of};

    ghost Value = { Turned E };

    ghost view = { λ t. turned t.pass.value.table_id (view_of t.pass.value.views) };

    ghost invariant = { λ t. Unit {0} };
}
