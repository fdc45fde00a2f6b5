use crate::scratch::{holds, keeps, scratch, unread, unwritten};
use std::fs;
use std::process::Abort;
use std::test::Fail;
use view_ends::{Desk, EndFault, HostDesk, Sink, Source};

/// Keeps a text, and takes it again.
fn taken_again(rt: &impl Abort, desk: &mut HostDesk<HostRuntime>, name: &str) -> Result<(), Fail> {
    keeps(desk, name, b"a dozen bytes")?;
    let mut input = desk.open_in(name)?;
    assert_eq!(rt; input.expected(), 13);
    let mut buf = [0; 16];
    let n = input.take(&mut buf)?;
    assert_eq!(rt; &buf[..n], b"a dozen bytes".as_slice());
    assert_eq!(rt; input.take(&mut buf)?, 0);
    desk.shut(name, input);
    Ok(())
}

#[test]
fn what_was_kept_is_taken_again(rt: HostRuntime) -> Result<(), Fail> {
    let name = scratch(rt, "", "kept")?;
    let mut desk = HostDesk::new(rt, rt.alloc());
    taken_again(&rt, &mut desk, name.as_str())?;
    unwritten(&rt, &mut desk, name.as_str());
    fs::remove_file(&rt, name.as_str())?;
    Ok(())
}

#[test]
fn a_name_below_no_folder_fails(rt: HostRuntime) -> Result<(), Fail> {
    let name = scratch(rt, "", "none/file")?;
    let mut desk = HostDesk::new(rt, rt.alloc());
    unread(&rt, &mut desk, name.as_str());
    unwritten(&rt, &mut desk, name.as_str());
    Ok(())
}

#[test]
fn each_standard_stream_opens_once(rt: HostRuntime) -> Result<(), Fail> {
    let mut desk = HostDesk::new(rt, rt.alloc());
    let out = desk.open_out("-")?;
    let input = desk.open_in("-")?;
    desk.shut("-", input);
    desk.keep("-", out)?;
    unread(&rt, &mut desk, "-");
    unwritten(&rt, &mut desk, "-");
    Ok(())
}

/// Writes texts of three lengths over one another.
fn overwritten(rt: &impl Abort, host: HostRuntime, name: &str) -> Result<(), Fail> {
    for text in [b"a longer text".as_slice(), b"a text", b""] {
        let mut desk = HostDesk::new(host, host.alloc());
        keeps(&mut desk, name, text)?;
        holds(rt, host, name, text)?;
    }
    Ok(())
}

#[test]
fn a_longer_file_is_cut(rt: HostRuntime) -> Result<(), Fail> {
    let name = scratch(rt, "", "cut")?;
    overwritten(&rt, rt, name.as_str())?;
    fs::remove_file(&rt, name.as_str())?;
    Ok(())
}

/// The byte at a place of a long file.
fn byte_at(at: usize) -> u8 {
    (at % 251) as u8
}

/// Keeps a file of 200,000 bytes.
fn keeps_long(rt: HostRuntime, name: &str) -> Result<(), Fail> {
    let mut bytes = Vec::new(rt.alloc());
    for at in 0..200_000 {
        bytes.push(byte_at(at))?;
    }
    let mut desk = HostDesk::new(rt, rt.alloc());
    keeps(&mut desk, name, bytes.as_slice())?;
    Ok(())
}

/// Takes one piece, which has to be the bytes from this place on, and answers how many they are.
fn takes_from<S: Source>(
    rt: &impl Abort,
    input: &mut S,
    buf: &mut [u8],
    at: usize,
) -> Result<usize, Fail> {
    let n = input.take(buf)?;
    for (i, byte) in buf[..n].iter().enumerate() {
        assert_eq!(rt; *byte, byte_at(at.wrapping_add(i)), "after {at}");
    }
    Ok(n)
}

/// Takes all of an input in pieces of these lengths in turn, and answers how many bytes it had.
fn takes_all<S: Source>(rt: &impl Abort, input: &mut S) -> Result<usize, Fail> {
    let mut buf = [0; 70_001];
    let mut at = 0usize;
    for turn in 0..100_000 {
        let most = [1, 4099, 70_001, 313][turn % 4];
        let n = takes_from(rt, input, &mut buf[..most], at)?;
        if n == 0 {
            break;
        }
        at = at.wrapping_add(n);
    }
    Ok(at)
}

/// Opens a long file, and takes it whole.
fn whole(rt: &impl Abort, host: HostRuntime, name: &str) -> Result<(), Fail> {
    let mut desk = HostDesk::new(host, host.alloc());
    let mut input = desk.open_in(name)?;
    assert_eq!(rt; input.expected(), 200_000);
    assert_eq!(rt; takes_all(rt, &mut input)?, 200_000);
    desk.shut(name, input);
    Ok(())
}

#[test]
fn a_long_input_is_whole_in_odd_pieces(rt: HostRuntime) -> Result<(), Fail> {
    let name = scratch(rt, "", "long")?;
    keeps_long(rt, name.as_str())?;
    whole(&rt, rt, name.as_str())?;
    fs::remove_file(&rt, name.as_str())?;
    Ok(())
}

/// Gives to a device that is full, and keeps it.
fn full(rt: &impl Abort, desk: &mut HostDesk<HostRuntime>) -> Result<(), Fail> {
    let mut out = desk.open_out("/dev/full")?;
    assert_eq!(rt; out.give(b"bytes"), Err(EndFault::Failed));
    desk.keep("/dev/full", out)?;
    Ok(())
}

#[test]
fn a_full_device_fails_and_opens_again(rt: HostRuntime) -> Result<(), Fail> {
    let mut desk = HostDesk::new(rt, rt.alloc());
    full(&rt, &mut desk)?;
    let out = desk.open_out("/dev/full")?;
    desk.keep("/dev/full", out)?;
    let input = desk.open_in("/dev/full")?;
    desk.shut("/dev/full", input);
    Ok(())
}

/// An opened output that is dropped, since a later opening was refused.
fn left(
    rt: &impl Abort,
    host: HostRuntime,
    desk: &mut HostDesk<HostRuntime>,
    name: &str,
) -> Result<(), Fail> {
    let out = desk.open_out(name)?;
    unread(rt, desk, "");
    drop(out);
    holds(rt, host, name, b"bytes")
}

#[test]
fn an_output_that_got_nothing_stays_as_it_was(rt: HostRuntime) -> Result<(), Fail> {
    let name = scratch(rt, "", "left")?;
    fs::write(&rt, name.as_str(), "bytes")?;
    let mut desk = HostDesk::new(rt, rt.alloc());
    left(&rt, rt, &mut desk, name.as_str())?;
    fs::remove_file(&rt, name.as_str())?;
    Ok(())
}

/// A file that may be a survey is refused under each of its names, and stays as it was.
fn spared(rt: &impl Abort, host: HostRuntime, name: &str, bytes: &[u8]) -> Result<(), Fail> {
    let mut desk = HostDesk::new(host, host.alloc());
    unwritten(rt, &mut desk, name);
    holds(rt, host, name, bytes)
}

/// Of two files of four bytes the one that begins as a survey is spared.
fn spares_surveys(rt: &impl Abort, host: HostRuntime, name: &str) -> Result<(), Fail> {
    fs::write(&host, name, "LASF")?;
    spared(rt, host, name, b"LASF")?;
    fs::write(&host, name, "LASf")?;
    let mut desk = HostDesk::new(host, host.alloc());
    assert_eq!(rt; keeps(&mut desk, name, b"a text"), Ok(()));
    holds(rt, host, name, b"a text")
}

#[test]
fn what_begins_as_a_survey_is_spared(rt: HostRuntime) -> Result<(), Fail> {
    let name = scratch(rt, "", "survey")?;
    spares_surveys(&rt, rt, name.as_str())?;
    fs::remove_file(&rt, name.as_str())?;
    Ok(())
}
