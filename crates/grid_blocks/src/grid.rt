ghost use Rattle.std.specs.Prelude.{◌≡◌, ℕ, ◌/◌, ◌<◌, ◌≤◌, ◌^◌, IsTrue};
ghost use Rattle.grid_blocks.specs.Grid as grid;
ghost use Rattle.grid_blocks.specs.Grid.{IsExponent, extent};
ghost use Rattle.view_meaning.specs.Classes.{in_box};

use view_base::{Box3, Point};

/// The cells of a box: cubes of 2^exponent units an edge, counted from its least corner, less than
/// 64 of them along each axis.
#[derive(Clone, Copy)]
pub struct Grid {
    area: Box3,
    exponent: u32,
    ghost is_exponent: { IsExponent area exponent },
    ghost small: { exponent ≤ 26 },
}

impl Grid {
    /// The cells of a box.
    pub(crate) fn of(area: Box3) -> Grid
        ensures { result.area ≡ area }
    {
        let exponent = exponent_of(greatest_extent(&area));
        Grid { area, exponent }
    }

    /// The key of the cell that a point is in.
    #[inline]
    pub(crate) fn key(&self, p: Point) -> u64
        requires { IsTrue (in_box self.now.area p) }
        ensures key { result ≡ grid.key self.now.area self.now.exponent p }
        ensures small { result < 2 ^ 18 }
    {
        let low = self.area.min;
        let x = cell(self.exponent, low.x, p.x);
        let y = cell(self.exponent, low.y, p.y);
        let z = cell(self.exponent, low.z, p.z);
        (z * 64 + y) * 64 + x
    }
}

/// The cell along one axis, from the least coordinate.
#[inline]
fn cell(exponent: u32, low: i32, at: i32) -> u64
    requires { exponent ≤ 26 }
    ensures { result ≡ grid.cell exponent low at }
{
    u64::from(at.abs_diff(low) >> exponent)
}

/// The greatest of the three extents of a box.
fn greatest_extent(area: &Box3) -> u32
    ensures { result ≡ extent area.now }
{
    let x = area.max.x.abs_diff(area.min.x);
    let y = area.max.y.abs_diff(area.min.y);
    let z = area.max.z.abs_diff(area.min.z);
    x.max(y).max(z)
}

/// The least exponent with which an extent has less than 64 cells.
fn exponent_of(extent: u32) -> u32
    ensures fits { extent / 2 ^ result < 64 }
    ensures least { (d : ℕ) → d < result → 64 ≤ extent / 2 ^ d }
    ensures small { result ≤ 26 }
{
    let mut exponent = 0;
    while extent >> exponent >= 64 {
        exponent += 1;
    }
    exponent
}
