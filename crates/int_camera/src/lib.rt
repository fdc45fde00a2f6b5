//! Integer cameras: the numbers that describe one, their ranges, and where a point falls in its
//! picture.
#![tactic(auto)]

mod camera;
mod division;
mod half_space;
mod numbers;
mod projection;

pub use camera::Camera;
pub use half_space::{HalfSpace, half_spaces};
pub use numbers::{CameraLimit, CameraNumbers, Kind};
pub use projection::{Spot, project};
