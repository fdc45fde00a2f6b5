ghost use Rattle.std.specs.Prelude.{◌≡◌, ◌↔◌, ◌+◌, ◌-◌, ◌*◌, ◌/◌, ◌^◌, ◌≤◌, ℤ, pos, neg_ℤ, ◌+ℤ◌, ◌-ℤ◌, ◌*ℤ◌, ◌≤ℤ◌, All, List};
ghost use Rattle.view_base.specs.declared.place.Point.{Point as Vector};
ghost use Rattle.int_camera.specs.Kept.{IsFactor, IsFar, IsNormal, IsPart, IsVector};
ghost use Rattle.int_camera.specs.HalfSpaces.{HasNormal, IsInView, Meets, from_first, from_near, half_spaces, opposite, past_eye, plus, times, to_far, to_last};

use crate::camera::Camera;
use crate::numbers::Kind;
use view_base::Point;

/// The points that are at least as far along a normal as `c`: those with
/// `nx * x + ny * y + nz * z >= c` in their own coordinates.
#[derive(Clone, Copy, Debug, PartialEq, Eq)]
pub struct HalfSpace {
    pub nx: i128,
    pub ny: i128,
    pub nz: i128,
    pub c: i128,
}

/// The six half-spaces in which the points in view lie, and no others: from the first column to the
/// last, from the first row to the last, and from the least depth to the greatest. The parts of a
/// normal are within 2^36 in size. Takes no memory.
pub fn half_spaces(camera: &Camera) -> [HalfSpace; 6]
    ensures list { result ≡ half_spaces camera.now }
    ensures in_view { (p : Vector) → IsInView camera.now p ↔ All (λ h. Meets h p) result }
    ensures normals { All HasNormal result }
{
    [
        from_first(camera, &camera.right, camera.width),
        to_last(camera, &camera.right, camera.width),
        from_first(camera, &camera.down, camera.height),
        to_last(camera, &camera.down, camera.height),
        from_near(camera),
        to_far(camera),
    ]
}

/// The half-space from the first column or row on.
fn from_first(camera: &Camera, vector: &Point, size: u32) -> HalfSpace
    requires vector { IsVector vector.now }
    requires size { (1 ≤ size) × (size ≤ 4096) }
    ensures { result ≡ from_first camera.now.kind camera.now vector.now size }
{
    let half = size / 2;
    match camera.kind {
        Kind::Ortho => past_along(&camera.eye, vector, -steps(half, camera.scale)),
        Kind::Persp => past_mixed(
            &camera.eye,
            camera.scale as i64,
            vector,
            i64::from(half),
            &camera.forward,
            0,
        ),
    }
}

/// The half-space up to the last column or row.
fn to_last(camera: &Camera, vector: &Point, size: u32) -> HalfSpace
    requires vector { IsVector vector.now }
    requires size { (1 ≤ size) × (size ≤ 4096) }
    ensures { result ≡ to_last camera.now.kind camera.now vector.now size }
{
    let half = size - size / 2;
    match camera.kind {
        Kind::Ortho => past_against(&camera.eye, vector, 1 - steps(half, camera.scale)),
        Kind::Persp => past_mixed(
            &camera.eye,
            i64::from(half),
            &camera.forward,
            -(camera.scale as i64),
            vector,
            1,
        ),
    }
}

/// The half-space from the least depth on.
fn from_near(camera: &Camera) -> HalfSpace
    ensures { result ≡ from_near camera.now }
{
    past_along(
        &camera.eye,
        &camera.forward,
        steps(camera.near, camera.unit),
    )
}

/// The half-space up to the greatest depth.
fn to_far(camera: &Camera) -> HalfSpace
    ensures { result ≡ to_far camera.now }
{
    past_against(
        &camera.eye,
        &camera.forward,
        1 - steps(camera.far + 1, camera.unit),
    )
}

/// So many steps: columns, rows or units of depth.
fn steps(count: u32, step: u64) -> i128
    requires step { step ≤ 2 ^ 40 }
    ensures value { result ≡ pos (count * step) }
    ensures bounds { (pos 0 ≤ℤ result) × (result ≤ℤ pos (2 ^ 72)) }
{
    (u128::from(count) * u128::from(step)) as i128
}

/// The half-space that begins this far past the eye along a vector.
fn past_along(eye: &Point, vector: &Point, far: i128) -> HalfSpace
    requires vector { IsVector vector.now }
    requires far { IsFar far }
    ensures { result ≡ past_eye eye.now vector.now far }
{
    past_eye(
        eye,
        i64::from(vector.x),
        i64::from(vector.y),
        i64::from(vector.z),
        far,
    )
}

/// The half-space that begins this far past the eye against a vector.
fn past_against(eye: &Point, vector: &Point, far: i128) -> HalfSpace
    requires vector { IsVector vector.now }
    requires far { IsFar far }
    ensures { result ≡ past_eye eye.now (opposite vector.now) far }
{
    past_eye(
        eye,
        negative(vector.x),
        negative(vector.y),
        negative(vector.z),
        far,
    )
}

/// The half-space that begins this far past the eye along two vectors, each so many times.
fn past_mixed(
    eye: &Point,
    often: i64,
    vector: &Point,
    again: i64,
    other: &Point,
    far: i128,
) -> HalfSpace
    requires often { IsFactor often }
    requires vector { IsVector vector.now }
    requires again { IsFactor again }
    requires other { IsVector other.now }
    requires far { IsFar far }
    ensures { result ≡ past_eye eye.now (plus (times often vector.now) (times again other.now)) far }
{
    past_eye(
        eye,
        mixed(often, vector.x, again, other.x),
        mixed(often, vector.y, again, other.y),
        mixed(often, vector.z, again, other.z),
        far,
    )
}

/// A part of a vector the other way.
fn negative(part: i32) -> i64
    requires part { IsPart part }
    ensures value { result ≡ neg_ℤ part }
    ensures bounds { IsNormal result }
{
    -i64::from(part)
}

/// A part of a vector so many times, and of another so many times.
fn mixed(times: i64, part: i32, others: i64, other: i32) -> i64
    requires times { IsFactor times }
    requires part { IsPart part }
    requires others { IsFactor others }
    requires other { IsPart other }
    ensures value { result ≡ times *ℤ part +ℤ others *ℤ other }
    ensures bounds { IsNormal result }
{
    multiple(times, part) + multiple(others, other)
}

/// A part of a vector so many times.
fn multiple(times: i64, part: i32) -> i64
    requires times { IsFactor times }
    requires part { IsPart part }
    ensures value { result ≡ times *ℤ part }
    ensures bounds { (neg_ℤ (pos (2 ^ 35)) ≤ℤ result) × (result ≤ℤ pos (2 ^ 35)) }
{
    times * i64::from(part)
}

/// The half-space that begins this far past the eye along a normal.
fn past_eye(eye: &Point, nx: i64, ny: i64, nz: i64, far: i128) -> HalfSpace
    requires nx { IsNormal nx }
    requires ny { IsNormal ny }
    requires nz { IsNormal nz }
    requires far { IsFar far }
    ensures { result ≡ past_eye eye.now (record { x = nx; y = ny; z = nz }) far }
{
    HalfSpace {
        nx: i128::from(nx),
        ny: i128::from(ny),
        nz: i128::from(nz),
        c: along(nx, eye.x) + along(ny, eye.y) + along(nz, eye.z) + far,
    }
}

/// A coordinate of the eye so many times.
fn along(part: i64, coordinate: i32) -> i128
    requires { IsNormal part }
    ensures value { result ≡ part *ℤ coordinate }
    ensures bounds { (neg_ℤ (pos (2 ^ 67)) ≤ℤ result) × (result ≤ℤ pos (2 ^ 67)) }
{
    i128::from(part) * i128::from(coordinate)
}
