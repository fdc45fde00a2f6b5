/// A place in the file's integer units, before scale and offset (LAS 1.4 R15, the X, Y and Z of a
/// point data record).
#[derive(Clone, Copy, Debug, PartialEq, Eq)]
pub struct Point {
    pub x: i32,
    pub y: i32,
    pub z: i32,
}

/// A box in the file's integer units: both corners are in it. One whose `min` is above its `max`
/// in some coordinate holds no point.
#[derive(Clone, Copy, Debug, PartialEq, Eq)]
pub struct Box3 {
    pub min: Point,
    pub max: Point,
}
