ghost use Rattle.std.specs.Prelude.{◌≡◌, ◌^◌, pos, neg_ℤ, ◌*ℤ◌, ◌≤ℤ◌};
ghost use Rattle.std.specs.Int.{int_max};
ghost use Rattle.int_camera.specs.Kept.{IsNormal};

use crate::cull::{Cull, farther};
use int_camera::HalfSpace;
use view_base::Box3;

/// The form of each half-space: sums of 128 bits.
impl Cull for HalfSpace {
    ghost half_space = { λ h. h };

    #[inline]
    fn excludes(&self, area: &Box3) -> bool {
        let farthest = reach(self.nx, area.min.x, area.max.x)
            + reach(self.ny, area.min.y, area.max.y)
            + reach(self.nz, area.min.z, area.max.z);
        farthest < self.c
    }
}

/// How far the farther of two coordinates reaches along a part of a normal.
#[inline]
fn reach(part: i128, one: i32, other: i32) -> i128
    requires { IsNormal part }
    ensures value { result ≡ int_max (part *ℤ one) (part *ℤ other) }
    ensures bounds { (neg_ℤ (pos (2 ^ 67)) ≤ℤ result) × (result ≤ℤ pos (2 ^ 67)) }
{
    part * i128::from(farther(part >= 0, one, other))
}
