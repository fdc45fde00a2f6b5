ghost use Rattle.std.specs.Prelude.{◌≡◌, pos};
ghost use Rattle.int_camera.specs.Limits.{deepest, first_outside, is_out, near_range, projection_of, ranges, scale_range};

/// How a camera maps points.
#[derive(Clone, Copy, Debug, PartialEq, Eq)]
pub enum Kind {
    /// Parallel to its forward vector.
    Ortho,
    /// Through its eye.
    Persp,
}

/// The numbers of a camera in the order of their places, which count from 1: width and height in
/// pixels (1, 2), the eye (3 to 5) and the vectors to the right (6 to 8), down (9 to 11) and
/// forward (12 to 14) in the file's integer units, the scale, or the focal number of a camera in
/// perspective (15), the unit of depth (16), and the least and the greatest depth that shows, in
/// that unit (17, 18).
#[derive(Clone, Copy, Debug, PartialEq, Eq)]
pub struct CameraNumbers {
    pub kind: Kind,
    pub n: [i128; 18],
}

/// The first number of a camera that is out of its range: its place, 1 to 18 as in
/// `CameraNumbers` or 19 for width times height, and its value.
#[derive(Clone, Copy, Debug, PartialEq, Eq)]
pub struct CameraLimit {
    pub place: u8,
    pub value: i128,
}

/// The first number that is out of its range, or none.
pub(crate) fn first_limit(numbers: &CameraNumbers) -> Option<CameraLimit>
    ensures { result ≡ first_outside (projection_of numbers.now.kind) numbers.now.n }
{
    let allowed = ranges_of(numbers.kind, numbers.n[16]);
    for (i, value) in numbers.n.iter().enumerate() {
        if is_out(allowed[i], *value) {
            return Some(CameraLimit {
                place: i as u8 + 1,
                value: *value,
            });
        }
    }
    let pixels = numbers.n[0] * numbers.n[1];
    if is_out(allowed[18], pixels) {
        return Some(CameraLimit {
            place: 19,
            value: pixels,
        });
    }
    None
}

/// Whether a number is below the least or above the greatest of a range.
fn is_out(range: (i128, i128), value: i128) -> bool
    ensures { result ≡ is_out range value }
{
    value < range.0 || range.1 < value
}

/// The least and the greatest of each number that is looked at.
fn ranges_of(kind: Kind, near: i128) -> [(i128, i128); 19]
    ensures { result ≡ ranges (projection_of kind) near }
{
    let side = (1, 4096);
    let coordinate = (-2147483648, 2147483647);
    let part = (-32768, 32767);
    let deepest = 4294967294;
    [
        side,
        side,
        coordinate,
        coordinate,
        coordinate,
        part,
        part,
        part,
        part,
        part,
        part,
        part,
        part,
        part,
        (1, greatest_scale(kind)),
        (1, 1099511627776),
        (least_near(kind), deepest),
        (near, deepest),
        (1, 9437184),
    ]
}

/// The greatest scale, or focal number.
fn greatest_scale(kind: Kind) -> i128
    ensures { (pos 1, result) ≡ scale_range (projection_of kind) }
{
    match kind {
        Kind::Ortho => 1099511627776,
        Kind::Persp => 1048576,
    }
}

/// The least of the least depths: what is seen in perspective is ahead of the eye.
fn least_near(kind: Kind) -> i128
    ensures { (result, deepest) ≡ near_range (projection_of kind) }
{
    match kind {
        Kind::Ortho => 0,
        Kind::Persp => 1,
    }
}
