use crate::scratch::{holds, keeps, scratch};
use crate::unsteady::{Trouble, Unsteady};
use std::fs;
use std::process::Abort;
use std::test::Fail;
use view_ends::{Desk, EndFault, HostDesk, Source};

/// The desk of a system whose files have this trouble.
fn desk_in(host: HostRuntime, trouble: Trouble) -> HostDesk<Unsteady<HostRuntime>> {
    HostDesk::new(Unsteady { host, trouble }, host.alloc())
}

/// Keeps a text and takes it again, where a signal cuts the first call of each short.
fn taken_again(rt: &impl Abort, host: HostRuntime, name: &str) -> Result<(), Fail> {
    let mut desk = desk_in(host, Trouble::Signal);
    assert_eq!(rt; keeps(&mut desk, name, b"a text"), Ok(()));
    let mut input = desk.open_in(name)?;
    let mut buf = [0; 16];
    assert_eq!(rt; input.take(&mut buf), Ok(6));
    assert_eq!(rt; &buf[..6], b"a text".as_slice());
    desk.shut(name, input);
    Ok(())
}

#[test]
fn a_call_that_a_signal_cuts_short_is_made_again(rt: HostRuntime) -> Result<(), Fail> {
    let name = scratch(rt, "", "signal")?;
    taken_again(&rt, rt, name.as_str())?;
    holds(&rt, rt, name.as_str(), b"a text")?;
    fs::remove_file(&rt, name.as_str())?;
    Ok(())
}

/// What can't be stored isn't kept, and a device isn't asked.
fn unstored(rt: &impl Abort, host: HostRuntime, name: &str) {
    let mut desk = desk_in(host, Trouble::Unstored);
    assert_eq!(rt; keeps(&mut desk, name, b"a text"), Err(EndFault::Failed));
    assert_eq!(rt; keeps(&mut desk, "/dev/null", b"a text"), Ok(()));
}

#[test]
fn a_file_that_cannot_be_stored_is_not_kept(rt: HostRuntime) -> Result<(), Fail> {
    let name = scratch(rt, "", "unstored")?;
    unstored(&rt, rt, name.as_str());
    fs::remove_file(&rt, name.as_str())?;
    Ok(())
}
