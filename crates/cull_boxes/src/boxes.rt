ghost use Rattle.std.specs.Prelude.{◌↔◌, All, Any, IsTrue};
ghost use Rattle.view_base.specs.declared.place.Point.{Point as Corner};
ghost use Rattle.view_meaning.specs.Classes.{in_box};
ghost use Rattle.int_camera.specs.HalfSpaces.{HasNormal, IsInView};
ghost use Rattle.cull_boxes.specs.Outside.{Excludes, IsOutside};

use crate::cull::Cull;
use int_camera::{Camera, half_spaces};
use view_base::Box3;

/// Whether a box is outside a camera's view: one of the camera's six half-spaces has none of the
/// box's eight corners, and so no point of the box. A box that is not outside may still have no
/// point in view. Takes no memory.
pub fn outside(camera: &Camera, area: &Box3) -> bool
    ensures exact { IsTrue result ↔ IsOutside camera.now area.now }
    ensures not_in_view { IsTrue result → (p : Corner) → IsTrue (in_box area.now p) → ¬ IsInView camera.now p }
{
    some_excludes(&half_spaces(camera), area)
}

/// Whether one of some half-spaces has no corner of a box.
#[inline]
pub(crate) fn some_excludes<S: Cull>(spaces: &[S], area: &Box3) -> bool
    requires { All (λ s. HasNormal (S.half_space s)) spaces.now }
    ensures { IsTrue result ↔ Any (λ s. Excludes (S.half_space s) area.now) spaces.now }
{
    for space in spaces {
        if space.excludes(area) {
            return true;
        }
    }
    false
}
