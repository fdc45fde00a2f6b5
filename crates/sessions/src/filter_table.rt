ghost use Rattle.std.specs.Prelude.{◌≡◌, ℕ, ◌<◌, true};
ghost use Rattle.sessions.specs.Passing.{AreMarks};
ghost use Rattle.view_meaning.specs.Classes.{has};

use class_bits::{ClassSet, Filter};
use std::marker::Model;

/// A filter with a table of its classes: whether a class is one of them is one look-up. Contracts
/// see the filter.
#[derive(Drop)]
pub(crate) struct FilterTable {
    filter: Filter,
    marks: [bool; 256],
}

impl Model for FilterTable {
    ghost use Rattle.sessions.specs.Passing.{AreMarks};
    ghost use Rattle.view_meaning.specs.Classes as meaning;

    ghost Value = { meaning.Filter };

    ghost view = { λ t. t.filter };

    ghost invariant = { λ t. AreMarks t.filter.classes t.marks };
}

impl FilterTable {
    /// The table of a filter.
    pub(crate) fn of(filter: &Filter) -> FilterTable
        ensures { result ≡ filter.now }
    {
        FilterTable {
            filter: *filter,
            marks: marks_of(&filter.classes),
        }
    }

    /// Whether withheld records are hidden.
    pub(crate) fn hides_withheld(&self) -> bool
        ensures { result ≡ self.now.hide_withheld }
    {
        self.filter.hide_withheld
    }

    /// Whether all classes pass.
    pub(crate) fn has_all(&self) -> bool
        ensures { result ≡ true → (c : ℕ) → c < 256 → has self.now.classes c ≡ true }
    {
        self.filter.classes == ClassSet::all()
    }

    /// Whether a class is one of the filter's.
    #[inline]
    pub(crate) fn has(&self, class: u8) -> bool
        ensures { result ≡ has self.now.classes class }
    {
        self.marks[usize::from(class)]
    }
}

/// One mark for each class: whether a set has it.
fn marks_of(classes: &ClassSet) -> [bool; 256]
    ensures { AreMarks classes.now result }
{
    let mut marks = [false; 256];
    for class in 0..256 {
        marks[class] = classes.has(class as u8);
    }
    marks
}
