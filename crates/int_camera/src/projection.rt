ghost use Rattle.std.specs.Prelude.{◌≡◌, ◌+◌, ◌*◌, ◌/◌, ◌-◌, ◌^◌, ◌<◌, ◌≤◌, ℤ, pos, neg_ℤ, ◌+ℤ◌, ◌-ℤ◌, ◌*ℤ◌, ◌≤ℤ◌, Some, None, IfSome, IfNone};
ghost use Rattle.view_meaning.specs.Camera.{orthographic, perspective, spot, spot_by, spot_of, away, between, dot, floor, from_edge};
ghost use Rattle.int_camera.specs.Kept.{IsDistance, IsReached, IsVector};
ghost use Rattle.int_camera.specs.Seen.{seen};

use crate::camera::Camera;
use crate::division::{quotient, reciprocal};
use crate::numbers::Kind;
use view_base::Point;

/// Where a point shows in a picture.
#[derive(Clone, Copy, Debug, PartialEq, Eq)]
pub struct Spot {
    /// The pixel, counted row by row from the top left.
    pub pixel: u32,
    /// The distance ahead of the eye in the camera's unit of depth.
    pub depth: u32,
}

/// Where a point shows in a camera's picture, and `None` exactly where it is not in view. Takes no
/// memory.
#[inline(always)]
pub fn project(camera: &Camera, p: Point) -> Option<Spot>
    ensures spot { result ≡ seen camera.now (spot camera.now p) }
    ensures pixel { IfSome result (λ s. s.pixel < camera.now.width * camera.now.height) }
    ensures depth { IfSome result (λ s. s.depth ≤ 2 ^ 32 - 2) }
{
    let across = distance_along(&camera.right, &p, &camera.eye);
    let along = distance_along(&camera.down, &p, &camera.eye);
    let ahead = distance_along(&camera.forward, &p, &camera.eye);
    match camera.kind {
        Kind::Ortho => project_ortho(camera, across, along, ahead),
        Kind::Persp => project_persp(camera, across, along, ahead),
    }
}

/// Where a point shows that is this far to the right of, below and ahead of the eye of an
/// orthographic camera.
#[inline]
fn project_ortho(camera: &Camera, across: i64, along: i64, ahead: i64) -> Option<Spot>
    requires across { IsDistance across }
    requires along { IsDistance along }
    requires ahead { IsDistance ahead }
    ensures spot { result ≡ seen camera.now (spot_by orthographic camera.now across along ahead) }
    ensures pixel { IfSome result (λ s. s.pixel < camera.now.width * camera.now.height) }
    ensures depth { IfSome result (λ s. s.depth ≤ 2 ^ 32 - 2) }
{
    let column = offset(across, camera.scale, camera.width)?;
    let row = offset(along, camera.scale, camera.height)?;
    let by = camera.scale_reciprocal;
    let column = place(column, camera.scale, by, camera.width);
    let row = place(row, camera.scale, by, camera.height);
    spot_at(camera, column, row, ahead)
}

/// The same of a camera in perspective: what is not ahead of the eye shows nowhere.
#[inline]
fn project_persp(camera: &Camera, across: i64, along: i64, ahead: i64) -> Option<Spot>
    requires kind { camera.now.kind ≡ perspective }
    requires across { IsDistance across }
    requires along { IsDistance along }
    requires ahead { IsDistance ahead }
    ensures spot { result ≡ seen camera.now (spot_by perspective camera.now across along ahead) }
    ensures pixel { IfSome result (λ s. s.pixel < camera.now.width * camera.now.height) }
    ensures depth { IfSome result (λ s. s.depth ≤ 2 ^ 32 - 2) }
{
    if ahead <= 0 {
        return None;
    }
    let apart = ahead as u64;
    let column = magnified_offset(across, camera.scale, camera.reach, apart, camera.width)?;
    let row = magnified_offset(along, camera.scale, camera.reach, apart, camera.height)?;
    let by = reciprocal(apart);
    let column = place(column, apart, by, camera.width);
    let row = place(row, apart, by, camera.height);
    spot_at(camera, column, row, ahead)
}

/// The spot of a column and a row, where the distance ahead lies between near and far.
#[inline]
fn spot_at(camera: &Camera, column: u32, row: u32, ahead: i64) -> Option<Spot>
    requires column { column < camera.now.width }
    requires row { row < camera.now.height }
    requires ahead { IsDistance ahead }
    ensures spot { result ≡ seen camera.now (spot_of (Some column) (Some row) (between (floor ahead camera.now.unit) camera.now.near camera.now.far)) }
    ensures pixel { IfSome result (λ s. s.pixel < camera.now.width * camera.now.height) }
    ensures depth { IfSome result (λ s. s.depth ≤ 2 ^ 32 - 2) }
{
    let depth = depth(
        ahead,
        camera.unit,
        camera.unit_reciprocal,
        camera.near,
        camera.far,
    )?;
    Some(Spot {
        pixel: row * camera.width + column,
        depth,
    })
}

/// A distance from the picture's middle that is magnified by the scale, as one from the picture's
/// left or top edge, where the picture has it. One out of reach lies beside every picture, and its
/// product with the scale may not fit 64 bits.
#[inline]
fn magnified_offset(distance: i64, scale: u64, reach: u64, step: u64, size: u32) -> Option<u64>
    requires scale { (1 ≤ scale) × (scale ≤ 2 ^ 20) }
    requires reach { reach ≡ 2 ^ 60 / scale }
    requires step { (1 ≤ step) × (step ≤ 2 ^ 49) }
    requires size { (1 ≤ size) × (size ≤ 4096) }
    ensures inside { IfSome result (λ offset. from_edge (floor (distance *ℤ pos scale) step) size ≡ Some (offset / step)) }
    ensures beside { IfNone result (from_edge (floor (distance *ℤ pos scale) step) size ≡ None) }
    ensures within { IfSome result (λ offset. offset < size * step) }
{
    if distance.unsigned_abs() > reach {
        return None;
    }
    offset(distance * scale as i64, step, size)
}

/// A distance from the picture's middle as one from its left or top edge, where the picture has it,
/// in steps of a pixel. The quotient, rounded down, is below the size exactly where the distance is
/// below the size times the step: a point beside the picture costs no division.
#[inline]
fn offset(distance: i64, step: u64, size: u32) -> Option<u64>
    requires distance { IsReached distance }
    requires step { (1 ≤ step) × (step ≤ 2 ^ 49) }
    requires size { (1 ≤ size) × (size ≤ 4096) }
    ensures inside { IfSome result (λ offset. from_edge (floor distance step) size ≡ Some (offset / step)) }
    ensures beside { IfNone result (from_edge (floor distance step) size ≡ None) }
    ensures within { IfSome result (λ offset. offset < size * step) }
{
    let offset = from_near_edge(distance, step, size);
    if offset < 0 {
        return None;
    }
    let offset = offset as u64;
    if offset >= u64::from(size) * step {
        return None;
    }
    Some(offset)
}

/// The column or row of a distance from the picture's left or top edge, in steps of a pixel.
#[inline]
fn place(offset: u64, step: u64, reciprocal: u64, size: u32) -> u32
    requires offset { offset < size * step }
    requires step { 1 ≤ step }
    requires reciprocal { reciprocal ≡ (2 ^ 64 - 1) / step }
    ensures value { result ≡ offset / step }
    ensures within { result < size }
{
    quotient(offset, step, reciprocal) as u32
}

/// A distance from the picture's middle as one from its left or top edge.
#[inline]
fn from_near_edge(distance: i64, step: u64, size: u32) -> i64
    requires distance { IsReached distance }
    requires step { (1 ≤ step) × (step ≤ 2 ^ 49) }
    requires size { (1 ≤ size) × (size ≤ 4096) }
    ensures { result ≡ distance +ℤ pos (size / 2 * step) }
{
    distance + (u64::from(size / 2) * step) as i64
}

/// The depth of a distance ahead of the eye, where it lies between near and far.
#[inline]
fn depth(distance: i64, unit: u64, reciprocal: u64, near: u32, far: u32) -> Option<u32>
    requires distance { IsDistance distance }
    requires unit { (1 ≤ unit) × (unit ≤ 2 ^ 40) }
    requires reciprocal { reciprocal ≡ (2 ^ 64 - 1) / unit }
    ensures value { result ≡ between (floor distance unit) near far }
    ensures within { IfSome result (λ depth. depth ≤ far) }
{
    if distance < 0 {
        return None;
    }
    let depth = quotient(distance as u64, unit, reciprocal);
    if u64::from(near) <= depth && depth <= u64::from(far) {
        Some(depth as u32)
    } else {
        None
    }
}

/// How far a point is from the eye along a vector, in the file's units times the vector's length:
/// the sum of the three products.
#[inline]
fn distance_along(vector: &Point, p: &Point, eye: &Point) -> i64
    requires vector { IsVector vector.now }
    ensures value { result ≡ dot vector.now (away p.now eye.now) }
    ensures bounds { IsDistance result }
{
    sum(
        product(i64::from(vector.x), difference(p.x, eye.x)),
        product(i64::from(vector.y), difference(p.y, eye.y)),
        product(i64::from(vector.z), difference(p.z, eye.z)),
    )
}

#[inline]
fn sum(x: i64, y: i64, z: i64) -> i64
    requires x { (neg_ℤ (pos (2 ^ 47)) ≤ℤ x) × (x ≤ℤ pos (2 ^ 47)) }
    requires y { (neg_ℤ (pos (2 ^ 47)) ≤ℤ y) × (y ≤ℤ pos (2 ^ 47)) }
    requires z { (neg_ℤ (pos (2 ^ 47)) ≤ℤ z) × (z ≤ℤ pos (2 ^ 47)) }
    ensures value { result ≡ x +ℤ y +ℤ z }
    ensures bounds { IsDistance result }
{
    x + y + z
}

#[inline]
fn difference(p: i32, eye: i32) -> i64
    ensures value { result ≡ p -ℤ eye }
    ensures bounds { (neg_ℤ (pos (2 ^ 32)) ≤ℤ result) × (result ≤ℤ pos (2 ^ 32)) }
{
    i64::from(p) - i64::from(eye)
}

#[inline]
fn product(part: i64, distance: i64) -> i64
    requires part { (neg_ℤ (pos 32768) ≤ℤ part) × (part ≤ℤ pos 32767) }
    requires distance { (neg_ℤ (pos (2 ^ 32)) ≤ℤ distance) × (distance ≤ℤ pos (2 ^ 32)) }
    ensures value { result ≡ part *ℤ distance }
    ensures bounds { (neg_ℤ (pos (2 ^ 47)) ≤ℤ result) × (result ≤ℤ pos (2 ^ 47)) }
{
    part * distance
}
