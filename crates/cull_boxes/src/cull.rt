ghost use Rattle.std.specs.Prelude.{◌≡◌, ◌↔◌, pos, ◌*ℤ◌, ◌≤ℤ◌, ℤ, IsTrue};
ghost use Rattle.std.specs.Int.{int_max};
ghost use Rattle.int_camera.specs.declared.half_space.HalfSpace.{HalfSpace};
ghost use Rattle.int_camera.specs.HalfSpaces.{HasNormal};
ghost use Rattle.cull_boxes.specs.Outside.{Excludes};

use view_base::Box3;

/// One form of a half-space that boxes are culled by.
pub(crate) trait Cull {
    /// The half-space.
    ghost half_space: { Self → HalfSpace };

    /// Whether it has no corner of a box: not even the one that is farthest along its normal.
    fn excludes(&self, area: &Box3) -> bool
        requires { HasNormal (half_space self.now) }
        ensures { IsTrue result ↔ Excludes (half_space self.now) area.now };
}

/// The farther of two coordinates along a part of a normal: the greater where the part isn't
/// negative, and else the lesser.
#[inline]
pub(crate) fn farther(rising: bool, one: i32, other: i32) -> i32
    ensures { (part : ℤ) → IsTrue rising ↔ pos 0 ≤ℤ part → part *ℤ result ≡ int_max (part *ℤ one) (part *ℤ other) }
{
    if rising {
        one.max(other)
    } else {
        one.min(other)
    }
}
