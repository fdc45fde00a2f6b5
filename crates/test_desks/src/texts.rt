use crate::commands::leaves;
use crate::desks::File;
use crate::runtime::Host;
use std::alloc::Global;
use std::test::Fail;
use view_commands::Status;
use view_ends::{MemDesk, StillDesk};

/// What `info` tells of the survey of one point.
pub const TEXT: &[u8] =
    b"LAS 1.4\nheader 375\nformat 0\nlength 20\nrecords 1\nvlrs 0\nevlrs 0\nbytes 395\nbox 0 0 5 0 0 5\nclass 2 1\n";

/// An `info` of these bytes has to give this text, over either desk, and to leave the survey.
pub fn tells(rt: &impl Host, alloc: Global, survey: &[u8], text: &[u8]) -> Result<(), Fail> {
    let before: [File; 1] = [("a.las", survey)];
    let after: [File; 2] = [("a.txt", text), ("a.las", survey)];
    let line = "info a.las a.txt";
    leaves::<MemDesk>(rt, alloc, line, &before, Status::Done, &after)?;
    leaves::<StillDesk>(rt, alloc, line, &before, Status::Done, &after)
}
