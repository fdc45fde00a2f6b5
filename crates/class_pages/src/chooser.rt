ghost use Rattle.std.specs.Prelude.{◌≡◌, ℕ, true, false};
ghost use Rattle.class_pages.specs.Choosing.{Pick, Leaves, IsEven, by_edit};

use crate::boxes::{contains, meet};
use edit_ops::{Edit, applies};
use view_base::{Box3, Point};

/// What picks a class for a record's point and class. Contracts see the class that it picks.
pub trait Chooser {
    /// The class that it picks for a point and a class.
    ghost picks: { Self → Pick };

    /// The class that it picks for a point and a class.
    fn choose(&self, p: Point, class: u8) -> u8
        ensures { result ≡ picks self.now p class };

    /// Whether it may pick another class than a record's own for a point in this box. Where it may
    /// not, those who ask pass the box over.
    fn may_change(&self, area: Box3) -> bool
        ensures { result ≡ false → Leaves (picks self.now) area }
    {
        true
    }

    /// Whether it picks the same for each point in this box. Where it does, those who ask look at
    /// no point of it.
    fn is_even(&self, area: Box3) -> bool
        ensures { result ≡ true → IsEven (picks self.now) area }
    {
        false
    }
}

/// An edit picks the class after it.
impl Chooser for Edit {
    ghost picks = { by_edit };

    #[inline]
    fn choose(&self, p: Point, class: u8) -> u8 {
        if applies(self, p, class) {
            self.to
        } else {
            class
        }
    }

    #[inline]
    fn may_change(&self, area: Box3) -> bool {
        meet(area, self.area)
    }

    fn is_even(&self, area: Box3) -> bool {
        contains(self.area, area)
    }
}
