use std::alloc::Global;
use std::process::Abort;
use std::test::Fail;
use std::{env, fs, process};
use view_ends::{Desk, EndFault, give_all};

/// A name in the folder for temporary files, by this way from there.
pub(crate) fn scratch(rt: HostRuntime, way: &str, what: &str) -> Result<String, Fail> {
    let dir = env::temp_dir(&rt)?;
    let dir = dir.as_str();
    let id = process::id(rt.process());
    let alloc: Global = rt.alloc();
    Ok(format!(in alloc; "{dir}/{way}view_ends_{id}_{what}")?)
}

/// The file of this name has to hold these bytes.
pub(crate) fn holds(
    rt: &impl Abort,
    host: HostRuntime,
    name: &str,
    bytes: &[u8],
) -> Result<(), Fail> {
    let held = fs::read(&host, name)?;
    assert_eq!(rt; held.as_slice(), bytes);
    Ok(())
}

/// Opens a name for writing, gives it these bytes and keeps it.
pub(crate) fn keeps<D: Desk>(desk: &mut D, name: &str, bytes: &[u8]) -> Result<(), EndFault> {
    let mut out = desk.open_out(name)?;
    let given = give_all(&mut out, bytes);
    desk.keep(name, out)?;
    given
}

/// The name has to be refused for writing.
pub(crate) fn unwritten<D: Desk>(rt: &impl Abort, desk: &mut D, name: &str) {
    let opened = desk.open_out(name);
    assert_eq!(rt; opened.err(), Some(EndFault::Failed), "at {name}");
}

/// The name has to be refused for reading.
pub(crate) fn unread<D: Desk>(rt: &impl Abort, desk: &mut D, name: &str) {
    match desk.open_in(name) {
        Ok(input) => {
            desk.shut(name, input);
            assert!(rt; false, "at {name}");
        }
        Err(fault) => assert_eq!(rt; fault, EndFault::Failed, "at {name}"),
    }
}
