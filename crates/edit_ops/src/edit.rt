ghost use Rattle.std.specs.Prelude.{◌≡◌, ◌&&◌};
ghost use Rattle.view_meaning.specs.Classes.{has, in_box};

use class_bits::ClassSet;
use std::marker::Model;
use view_base::{Box3, Point};

/// A reclassification: the records of these classes in this box get one class. There is always a
/// class in `from`. Contracts see it as the record `Edit` of the definitions.
#[derive(Clone, Copy, Debug, PartialEq, Eq)]
pub struct Edit {
    /// The box, its corners included. One whose least corner is above its greatest holds no point.
    pub area: Box3,
    /// The classes that change: at least one.
    pub from: ClassSet,
    /// The class that they get.
    pub to: u8,
}

impl Model for Edit {
    ghost use Rattle.view_meaning.specs.Classes as meaning;
    ghost use Rattle.class_bits.specs.Kept.{HasClasses};

    ghost Value = { meaning.Edit };

    ghost view = { λ e. record { area = e.area; from = e.from; to = e.to } };

    ghost invariant = { λ e. HasClasses e.from };

    ghost inverse = { λ e. record { area = e.area; from = e.from; to = e.to } };
}

/// Whether a point lies in a box, its corners included.
fn is_in(area: Box3, p: Point) -> bool
    ensures { result ≡ in_box area p }
{
    let Box3 { min, max } = area;
    (min.x <= p.x)
        & (p.x <= max.x)
        & (min.y <= p.y)
        & (p.y <= max.y)
        & (min.z <= p.z)
        & (p.z <= max.z)
}

/// Whether an edit changes the class of a record at this place with this class.
pub fn applies(edit: &Edit, p: Point, class: u8) -> bool
    ensures { result ≡ (in_box edit.now.area p && has edit.now.from class) }
{
    is_in(edit.area, p) & edit.from.has(class)
}
