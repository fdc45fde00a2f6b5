ghost use Rattle.std.specs.Prelude.{◌≡◌, ◌+◌, ◌*◌, ◌≤◌, None, Some, IfErr, IfOk, OnOk, ◌-◌, ◌^◌};
ghost use Rattle.int_camera.specs.Limits.{first_outside, lens_of, number, point_from, projection_of};
ghost use Rattle.int_camera.specs.Kept.{IsCoordinate};

use crate::division::reciprocal;
use crate::numbers::{CameraLimit, CameraNumbers, Kind, first_limit};
use std::marker::Model;
use view_base::Point;

/// A camera whose numbers are all in range. Contracts see its `Lens`.
#[derive(Clone, Copy, Debug)]
pub struct Camera {
    pub(crate) kind: Kind,
    pub(crate) width: u32,
    pub(crate) height: u32,
    pub(crate) eye: Point,
    pub(crate) right: Point,
    pub(crate) down: Point,
    pub(crate) forward: Point,
    pub(crate) scale: u64,
    /// No picture has a point in perspective farther than this from its middle, before the
    /// distance is multiplied by the scale.
    pub(crate) reach: u64,
    /// By these a quotient is found without a division: `(2^64 - 1) / scale`, and so for the unit.
    pub(crate) scale_reciprocal: u64,
    pub(crate) unit: u64,
    pub(crate) unit_reciprocal: u64,
    pub(crate) near: u32,
    pub(crate) far: u32,
}

impl Model for Camera {
    ghost use Rattle.view_meaning.specs.Camera.{Lens};

    ghost Value = { Lens };

    ghost use Rattle.std.specs.Prelude.{◌≡◌, ◌-◌, ◌/◌, ◌^◌};
    ghost use Rattle.std.proofs.Common.{sym};
    ghost use Rattle.int_camera.specs.Limits.{kind_of, kind_of_projection, projection_of};
    ghost use Rattle.int_camera.specs.Kept.{IsCamera};

    ghost view = { λ c. record { kind = projection_of c.kind; width = c.width; height = c.height; eye = c.eye; right = c.right; down = c.down; forward = c.forward; scale = c.scale; unit = c.unit; near = c.near; far = c.far } };

    ghost inverse = { λ l. record { kind = kind_of l.kind; width = l.width; height = l.height; eye = l.eye; right = l.right; down = l.down; forward = l.forward; scale = l.scale; reach = 2 ^ 60 / l.scale; scale_reciprocal = (2 ^ 64 - 1) / l.scale; unit = l.unit; unit_reciprocal = (2 ^ 64 - 1) / l.unit; near = l.near; far = l.far } };

    ghost inverse_ok = { λ c h i. record { kind = kind_of_projection c.kind i; width = c.width; height = c.height; eye = c.eye; right = c.right; down = c.down; forward = c.forward; scale = c.scale; reach = sym h.0.0 i; scale_reciprocal = sym h.0.1.0 i; unit = c.unit; unit_reciprocal = sym h.0.1.1 i; near = c.near; far = c.far } };

    ghost invariant = { λ c. ((c.reach ≡ 2 ^ 60 / c.scale) × ((c.scale_reciprocal ≡ (2 ^ 64 - 1) / c.scale) × (c.unit_reciprocal ≡ (2 ^ 64 - 1) / c.unit))) × IsCamera (record { kind = projection_of c.kind; width = c.width; height = c.height; eye = c.eye; right = c.right; down = c.down; forward = c.forward; scale = c.scale; unit = c.unit; near = c.near; far = c.far }) };
}

impl Camera {
    /// The camera that numbers describe, or the first of them that is out of its range, looked at
    /// in the order of their places. Width and height are 1 to 4096 each and 1 to 9437184 as a
    /// product (place 19), the eye's coordinates 32 bits with a sign, the vectors' parts -32768 to
    /// 32767, the scale 1 to 2^40, or in perspective the focal number 1 to 2^20, the unit of depth
    /// 1 to 2^40, the depths in rising order up to 2^32 - 2 from 0, or in perspective from 1. The
    /// vectors need not be at right angles and may be zero. Takes no memory.
    pub fn new(numbers: &CameraNumbers) -> Result<Camera, CameraLimit>
        ensures in_range { OnOk result (first_outside (projection_of numbers.now.kind) numbers.now.n ≡ None) }
        ensures made { IfOk result (λ camera. camera ≡ lens_of (projection_of numbers.now.kind) numbers.now.n) }
        ensures refused { IfErr result (λ limit. first_outside (projection_of numbers.now.kind) numbers.now.n ≡ Some limit) }
    {
        match first_limit(numbers) {
            Some(limit) => Err(limit),
            None => Ok(Camera::of_numbers(numbers)),
        }
    }

    fn of_numbers(numbers: &CameraNumbers) -> Camera
        requires { first_outside (projection_of numbers.now.kind) numbers.now.n ≡ None }
        ensures { result ≡ lens_of (projection_of numbers.now.kind) numbers.now.n }
    {
        let n = &numbers.n;
        let scale = n[14] as u64;
        let unit = n[15] as u64;
        Camera {
            kind: numbers.kind,
            width: n[0] as u32,
            height: n[1] as u32,
            eye: point_from(numbers, 3),
            right: point_from(numbers, 6),
            down: point_from(numbers, 9),
            forward: point_from(numbers, 12),
            scale,
            reach: (1 << 60) / scale,
            scale_reciprocal: reciprocal(scale),
            unit,
            unit_reciprocal: reciprocal(unit),
            near: n[16] as u32,
            far: n[17] as u32,
        }
    }

    /// The picture's width in pixels.
    pub fn width(&self) -> u32
        ensures value { result ≡ self.now.width }
        ensures least { 1 ≤ result }
        ensures greatest { result ≤ 4096 }
        ensures pixels { self.now.width * self.now.height ≤ 9437184 }
        ensures deepest { self.now.far ≤ 2 ^ 32 - 2 }
    {
        self.width
    }

    /// The picture's height in pixels.
    pub fn height(&self) -> u32
        ensures value { result ≡ self.now.height }
        ensures least { 1 ≤ result }
        ensures greatest { result ≤ 4096 }
        ensures pixels { self.now.width * self.now.height ≤ 9437184 }
    {
        self.height
    }
}

/// The three numbers from a place on, as a point.
fn point_from(numbers: &CameraNumbers, place: usize) -> Point
    requires place { (1 ≤ place) × (place ≤ 16) }
    requires x { IsCoordinate (number numbers.now.n place) }
    requires y { IsCoordinate (number numbers.now.n (place + 1)) }
    requires z { IsCoordinate (number numbers.now.n (place + 2)) }
    ensures { result ≡ point_from numbers.now.n place }
{
    let n = &numbers.n;
    Point {
        x: n[place - 1] as i32,
        y: n[place] as i32,
        z: n[place + 1] as i32,
    }
}
