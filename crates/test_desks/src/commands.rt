use crate::comparing::same;
use crate::desks::{File, Shelf, fill, holds};
use crate::runtime::Host;
use std::alloc::{AllocError, Global};
use std::test::Fail;
use view_commands::{Ended, Status, run};
use view_ends::{Beside, Desk, NoBeside};

/// The words of a line, cut at its blanks.
pub fn words(alloc: Global, line: &str) -> Result<Vec<String>, AllocError> {
    let mut words = Vec::new(alloc);
    for word in line.split_whitespace() {
        words.push(word.to_string(alloc)?)?;
    }
    Ok(words)
}

/// Runs a line of the command line.
pub fn command(
    rt: &impl Host,
    alloc: Global,
    desk: &mut impl Desk,
    line: &str,
) -> Result<Ended, Fail> {
    command_beside(rt, alloc, desk, line, &NoBeside)
}

/// Runs a line of the command line, of whose workers somebody is told.
pub fn command_beside(
    rt: &impl Host,
    alloc: Global,
    desk: &mut impl Desk,
    line: &str,
    beside: &impl Beside,
) -> Result<Ended, Fail> {
    Ok(run(alloc, rt, &words(alloc, line)?, desk, beside))
}

/// Runs a line of the command line, which has to end so.
pub fn ends(
    rt: &impl Host,
    alloc: Global,
    desk: &mut impl Desk,
    line: &str,
    status: Status,
) -> Result<(), Fail> {
    let got = command(rt, alloc, desk, line)?.status;
    same(&got, &status, line)
}

/// Runs a line over a desk with these files, which has to end so and to leave these.
pub fn leaves<D: Shelf>(
    rt: &impl Host,
    alloc: Global,
    line: &str,
    before: &[File],
    status: Status,
    after: &[File],
) -> Result<(), Fail> {
    let mut desk = D::empty(alloc);
    fill(alloc, &mut desk, before)?;
    ends(rt, alloc, &mut desk, line, status)?;
    holds(&desk, after, line)
}
