use crate::commands::leaves;
use crate::desks::File;
use crate::runtime::Host;
use std::alloc::Global;
use std::test::Fail;
use view_commands::Status;
use view_ends::{MemDesk, StillDesk};

/// A camera of one pixel at the origin that looks along Z, by class.
pub const ONE_PIXEL: &str =
    "draw a.las a.ppm 1 ortho 1 1 0 0 0 1 0 0 0 1 0 0 0 1 1 1 0 10 class all show";

/// The picture of one pixel that shows class 2.
pub const CLASS_2: &[u8] = b"P6\n1 1\n255\n\xC6\x86\xFA";

/// The picture of one pixel that shows class 6.
pub const CLASS_6: &[u8] = b"P6\n1 1\n255\n\xD2\x92\x6E";

/// A view by that camera.
pub const VIEW: &[u8] = b"view ortho 1 1 0 0 0 1 0 0 0 1 0 0 0 1 1 1 0 10 class all show\n";

/// The reply to that view over the survey of one point, while no edit was published.
pub const VIEWED: &[u8] = b"PICTURE 0 14\nP6\n1 1\n255\n\xC6\x86\xFA";

/// A drawing of these bytes by these words has to give this picture, over either desk, and to leave
/// the survey.
pub fn draws(
    rt: &impl Host,
    alloc: Global,
    survey: &[u8],
    line: &str,
    picture: &[u8],
) -> Result<(), Fail> {
    let before: [File; 1] = [("a.las", survey)];
    let after: [File; 2] = [("a.ppm", picture), ("a.las", survey)];
    leaves::<MemDesk>(rt, alloc, line, &before, Status::Done, &after)?;
    leaves::<StillDesk>(rt, alloc, line, &before, Status::Done, &after)
}
