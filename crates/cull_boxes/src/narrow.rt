ghost use Rattle.std.specs.Prelude.{◌≡◌, ◌^◌, pos, neg_ℤ, ◌*ℤ◌, ◌≤ℤ◌, IfSome};
ghost use Rattle.std.specs.Int.{int_max};
ghost use Rattle.cull_boxes.specs.Narrow.{IsNarrow};

use crate::cull::{Cull, farther};
use int_camera::HalfSpace;
use std::marker::Model;
use view_base::Box3;

/// A half-space whose sums over a box's corners fit in 64 bits: each part of its normal is within
/// 2^30 in size, so three products with coordinates are within 3 * 2^61. Contracts see the
/// half-space.
#[derive(Drop)]
pub(crate) struct NarrowHalfSpace {
    nx: i64,
    ny: i64,
    nz: i64,
    c: i64,
}

impl Model for NarrowHalfSpace {
    ghost use Rattle.int_camera.specs.declared.half_space.HalfSpace.{HalfSpace};
    ghost use Rattle.cull_boxes.specs.Narrow.{IsNarrow};

    ghost Value = { HalfSpace };

    ghost view = { λ a. record { nx = a.nx; ny = a.ny; nz = a.nz; c = a.c } };

    ghost invariant = { λ a. IsNarrow a.nx × (IsNarrow a.ny × IsNarrow a.nz) };
}

impl Cull for NarrowHalfSpace {
    ghost half_space = { λ h. h };

    #[inline]
    fn excludes(&self, area: &Box3) -> bool {
        let farthest = reach(self.nx, area.min.x, area.max.x)
            + reach(self.ny, area.min.y, area.max.y)
            + reach(self.nz, area.min.z, area.max.z);
        farthest < self.c
    }
}

/// How far the farther of two coordinates reaches along a part of a normal.
#[inline]
fn reach(part: i64, one: i32, other: i32) -> i64
    requires { IsNarrow part }
    ensures value { result ≡ int_max (part *ℤ one) (part *ℤ other) }
    ensures bounds { (neg_ℤ (pos (2 ^ 61)) ≤ℤ result) × (result ≤ℤ pos (2 ^ 61)) }
{
    part * i64::from(farther(part >= 0, one, other))
}

/// The same half-spaces in 64 bits, or `None` where the numbers of one don't fit.
pub(crate) fn narrow_all(spaces: &[HalfSpace; 6]) -> Option<[NarrowHalfSpace; 6]>
    ensures { IfSome result (λ narrow. narrow ≡ spaces.now) }
{
    let [left, right, top, bottom, near, far] = spaces;
    Some([
        narrow(left)?,
        narrow(right)?,
        narrow(top)?,
        narrow(bottom)?,
        narrow(near)?,
        narrow(far)?,
    ])
}

/// The same half-space in 64 bits, or `None` where its numbers don't fit.
fn narrow(space: &HalfSpace) -> Option<NarrowHalfSpace>
    ensures { IfSome result (λ narrow. narrow ≡ space.now) }
{
    Some(NarrowHalfSpace {
        nx: narrow_part(space.nx)?,
        ny: narrow_part(space.ny)?,
        nz: narrow_part(space.nz)?,
        c: i64::try_from(space.c).ok()?,
    })
}

/// A part of a normal in 64 bits, or `None` where it is more than 2^30 in size.
fn narrow_part(part: i128) -> Option<i64>
    ensures same { IfSome result (λ narrow. narrow ≡ part) }
    ensures small { IfSome result IsNarrow }
{
    if part.unsigned_abs() <= 1 << 30 {
        Some(part as i64)
    } else {
        None
    }
}
