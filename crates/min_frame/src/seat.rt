use crate::view::View;
use std::marker::Model;

/// A thread's right to plot and claim on one frame, and the account of what it did there. Contracts
/// see the account; at run time a seat has no bytes. A frame with a lost seat can't be closed.
#[derive(Drop)]
pub struct Seat {
    pub(crate) inner: atomic_table::Seat<(), View>,
}

impl Model for Seat {
    ghost use Rattle.std.specs.Prelude.{◌≡◌, true, []};
    ghost use Rattle.min_frame.specs.Meaning.{Seated};

    ghost Value = { Seated };

    ghost view = { λ s. record {
      frame = s.inner.table_id;
      plots = s.inner.me.0.plots;
      claims = s.inner.me.0.claims;
      ends = s.inner.me.0.ends;
      root = s.inner.me.0.root;
      out = s.inner.me.0.out;
    } };

    ghost invariant = { λ s. (s.inner.me.0.live ≡ true) × (s.inner.me.1 ≡ []) };
}
