ghost use Rattle.std.specs.Prelude.{◌≡◌, ◌&&◌, not};
ghost use Rattle.view_meaning.specs.Classes.{has};

use crate::class_set::ClassSet;
use std::marker::Model;

/// Which records a view shows and a count counts. Contracts see it as the record `Filter` of the
/// definitions.
#[derive(Clone, Copy, Debug, PartialEq, Eq)]
pub struct Filter {
    /// The classes that pass.
    pub classes: ClassSet,
    /// Whether withheld records are hidden.
    pub hide_withheld: bool,
}

impl Model for Filter {
    ghost use Rattle.view_meaning.specs.Classes as meaning;

    ghost Value = { meaning.Filter };

    ghost view = { λ f. record { classes = f.classes; hide_withheld = f.hide_withheld } };

    ghost inverse = { λ f. record { classes = f.classes; hide_withheld = f.hide_withheld } };
}

/// Whether a record of this class, with this withheld flag, passes a filter.
pub fn passes(filter: &Filter, class: u8, withheld: bool) -> bool
    ensures { result ≡ (has filter.now.classes class && not (filter.now.hide_withheld && withheld)) }
{
    filter.classes.has(class) && !(filter.hide_withheld && withheld)
}
