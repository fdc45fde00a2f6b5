use crate::scratch::{holds, scratch, unread, unwritten};
use std::fs;
use std::os::unix::fs::symlink;
use std::process::Abort;
use std::test::Fail;
use view_ends::{Desk, HostDesk};

/// While a file is read, no name of it is written.
fn read_stays(rt: &impl Abort, host: HostRuntime, name: &str, others: &[&str]) -> Result<(), Fail> {
    let mut desk = HostDesk::new(host, host.alloc());
    let input = desk.open_in(name)?;
    for other in others {
        unwritten(rt, &mut desk, other);
    }
    drop(input);
    holds(rt, host, name, b"bytes")
}

/// Once a file was read and shut, another name of it is still not written.
fn shut_stays(rt: &impl Abort, host: HostRuntime, name: &str, other: &str) -> Result<(), Fail> {
    let mut desk = HostDesk::new(host, host.alloc());
    let input = desk.open_in(name)?;
    desk.shut(name, input);
    unwritten(rt, &mut desk, other);
    holds(rt, host, name, b"bytes")
}

/// While a file is written, no name of it is read or written.
fn written_stays(
    rt: &impl Abort,
    host: HostRuntime,
    name: &str,
    others: &[&str],
) -> Result<(), Fail> {
    let mut desk = HostDesk::new(host, host.alloc());
    let out = desk.open_out(name)?;
    for other in others {
        unread(rt, &mut desk, other);
        unwritten(rt, &mut desk, other);
    }
    drop(out);
    holds(rt, host, name, b"bytes")
}

/// No other name of a file destroys it while it is read, once it was read, or while it is written.
fn destroys_nothing(
    rt: &impl Abort,
    host: HostRuntime,
    name: &str,
    others: &[&str],
) -> Result<(), Fail> {
    read_stays(rt, host, name, others)?;
    for other in others {
        shut_stays(rt, host, name, other)?;
    }
    written_stays(rt, host, name, others)
}

/// The same with a symbolic link of this name among the other names.
fn with_link(
    rt: &impl Abort,
    host: HostRuntime,
    name: &str,
    hard: &str,
    soft: &str,
) -> Result<(), Fail> {
    let spelled = scratch(host, "./", "own")?;
    symlink(&host, name, soft)?;
    destroys_nothing(rt, host, name, &[spelled.as_str(), soft, hard])?;
    fs::remove_file(&host, soft)?;
    Ok(())
}

/// The same with a hard link of this name too.
fn with_links(rt: &impl Abort, host: HostRuntime, name: &str, hard: &str) -> Result<(), Fail> {
    let soft = scratch(host, "", "soft")?;
    fs::hard_link(&host, name, hard)?;
    with_link(rt, host, name, hard, soft.as_str())?;
    fs::remove_file(&host, hard)?;
    Ok(())
}

/// The same of a file of this name.
fn with_file(rt: &impl Abort, host: HostRuntime, name: &str) -> Result<(), Fail> {
    let hard = scratch(host, "", "hard")?;
    fs::write(&host, name, "bytes")?;
    with_links(rt, host, name, hard.as_str())?;
    fs::remove_file(&host, name)?;
    Ok(())
}

#[test]
fn no_name_of_an_opened_file_destroys_it(rt: HostRuntime) -> Result<(), Fail> {
    let name = scratch(rt, "", "own")?;
    with_file(&rt, rt, name.as_str())
}
