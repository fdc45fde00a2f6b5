//! What always holds of a frame's words and of what its seats know, and the kinds of its steps.

ghost use Rattle.std.specs.Prelude.{ℕ};

use crate::view::{Size, View};
use atomic_table::{Join, Play, Split, TableRule};
use std::marker::{Brand, PhantomData};

/// Each pixel's word is the least value that the seats plotted on it, and the numbers that they
/// claimed are those below the claim word, each once.
pub(crate) struct Rule;

impl TableRule<(), View, Size> for Rule {
    ghost use Rattle.min_frame.specs.Rule.{IsKept, root_view};

    ghost holds = { λ size s. IsKept size s.words s.views };

    ghost first = { λ size. root_view size.ends };
}

/// A number that the caller of a step picks.
pub(crate) trait Given {
    ghost number: { ℕ };
}

impl Given for Brand {
    ghost number = { 0 };
}

/// A plot: an atomic minimum on the pixel's word.
pub(crate) struct Plot;

impl Play<(), View> for Plot {
    ghost use Rattle.min_frame.specs.Rule.{Plots};

    ghost then = { Plots };
}

/// A claim of one of so many numbers: an atomic sum on the claim word.
pub(crate) struct Claim<B: Given> {
    blocks: PhantomData<B>,
}

impl<B: Given> Play<(), View> for Claim<B> {
    ghost use Rattle.min_frame.specs.Rule.{Claims};

    ghost then = { Claims B.number };
}

/// The split that gives so many of the root's ends away.
pub(crate) struct Cut<E: Given> {
    ends: PhantomData<E>,
}

impl<E: Given> Split<View> for Cut<E> {
    ghost use Rattle.min_frame.specs.Rule.{parted, worker_view};

    ghost left = { λ v. parted v E.number };

    ghost right = { λ v. worker_view E.number };
}

/// The join that carries a worker's account over to the root.
pub(crate) struct Merge;

impl Join<View> for Merge {
    ghost use Rattle.min_frame.specs.Rule.{merged, spent_view};

    ghost both = { merged };

    ghost spent = { spent_view };
}
