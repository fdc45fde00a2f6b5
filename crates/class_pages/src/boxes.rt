ghost use Rattle.std.specs.Prelude.{◌≡◌};
ghost use Rattle.class_pages.specs.Boxes.{covers, meets};

use view_base::Box3;

/// Whether two boxes, each of which holds a point, have a point in common.
#[inline]
pub(crate) fn meet(a: Box3, b: Box3) -> bool
    ensures { result ≡ meets a b }
{
    (a.min.x <= b.max.x)
        & (b.min.x <= a.max.x)
        & (a.min.y <= b.max.y)
        & (b.min.y <= a.max.y)
        & (a.min.z <= b.max.z)
        & (b.min.z <= a.max.z)
}

/// Whether a box holds the whole of another, which holds a point.
pub(crate) fn contains(a: Box3, b: Box3) -> bool
    ensures { result ≡ covers a b }
{
    (a.min.x <= b.min.x)
        & (b.max.x <= a.max.x)
        & (a.min.y <= b.min.y)
        & (b.max.y <= a.max.y)
        & (a.min.z <= b.min.z)
        & (b.max.z <= a.max.z)
}
