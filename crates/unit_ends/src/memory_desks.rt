use std::alloc::Global;
use std::process::Abort;
use std::test::Fail;
use view_base::Bytes;
use view_ends::{
    Desk, DeskCall, EndFault, Failed, MemDesk, MemSource, Places, Sink, Source, StillDesk, give_all,
};

/// Copies up to eight bytes of a file.
fn copy<D: Desk>(desk: &mut D, from: &str, to: &str) -> Result<(), EndFault> {
    let mut input = desk.open_in(from)?;
    let mut buf = [0; 8];
    let taken = input.take(&mut buf);
    desk.shut(from, input);
    let Ok(n) = taken else {
        return Err(EndFault::Failed);
    };
    let mut out = desk.open_out(to)?;
    let given = give_all(&mut out, &buf[..n]);
    desk.keep(to, out)?;
    given
}

/// Five bytes.
fn five(alloc: Global) -> Result<Bytes, Fail> {
    let mut bytes = Bytes::new(alloc);
    bytes.append(b"bytes")?;
    Ok(bytes)
}

/// The refused openings and the failed reads of "a", the failed writes and the refusals of "b".
fn counted(desk: &MemDesk) -> [u64; 4] {
    [
        desk.unopened("a"),
        desk.read_faults("a"),
        desk.write_faults("b"),
        desk.unkept("b"),
    ]
}

/// Copies "a" while this call fails, which leaves this file and these counts.
fn fails(rt: &impl Abort, desk: &mut MemDesk, left: Option<&[u8]>, counts: [u64; 4]) {
    assert_eq!(rt; copy(desk, "a", "b"), Err(EndFault::Failed));
    assert_eq!(rt; desk.bytes_of("b"), left);
    assert_eq!(rt; counted(desk), counts);
}

/// The five bytes have to be there as "b".
fn copied(rt: &impl Abort, desk: &MemDesk) {
    assert_eq!(rt; desk.bytes_of("b"), Some(b"bytes".as_slice()));
}

/// Copies "a" where no call fails any more.
fn works(rt: &impl Abort, desk: &mut MemDesk) {
    assert_eq!(rt; copy(desk, "a", "b"), Ok(()));
    copied(rt, desk);
}

/// Lets one call on a name fail, on a desk of its own.
fn tried(
    rt: &impl Abort,
    alloc: Global,
    name: &str,
    call: DeskCall,
    left: Option<&[u8]>,
    counts: [u64; 4],
) -> Result<(), Fail> {
    let mut desk = MemDesk::new(alloc);
    desk.put("a", five(alloc)?)?;
    desk.fail(name, call, 0)?;
    fails(rt, &mut desk, left, counts);
    works(rt, &mut desk);
    Ok(())
}

#[test]
fn each_call_fails_once(rt: HostRuntime) -> Result<(), Fail> {
    let empty = b"".as_slice();
    for (call, name, left, counts) in [
        (DeskCall::OpenIn, "a", None, [1, 0, 0, 0]),
        (DeskCall::Take, "a", None, [0, 1, 0, 0]),
        (DeskCall::OpenOut, "b", None, [0, 0, 1, 0]),
        (DeskCall::Give, "b", Some(empty), [0, 0, 1, 0]),
        (DeskCall::Keep, "b", Some(empty), [0, 0, 1, 1]),
    ] {
        tried(&rt, rt.alloc(), name, call, left, counts)?;
    }
    Ok(())
}

#[test]
fn a_give_stops_at_the_place_that_fails(rt: HostRuntime) -> Result<(), Fail> {
    let mut desk = MemDesk::new(rt.alloc());
    desk.put("a", five(rt.alloc())?)?;
    desk.fail("b", DeskCall::Give, 3)?;
    fails(&rt, &mut desk, Some(b"byt".as_slice()), [0, 0, 1, 0]);
    Ok(())
}

/// Takes from a source that fails at its third byte.
fn takes(rt: &impl Abort, source: &mut MemSource) -> Result<(), Fail> {
    let mut buf = [0; 8];
    assert_eq!(rt; source.take(&mut buf), Ok(3));
    assert_eq!(rt; source.take(&mut buf), Err(Failed));
    assert_eq!(rt; source.take(&mut buf), Ok(2));
    assert_eq!(rt; &buf[..2], b"es".as_slice());
    Ok(())
}

#[test]
fn a_take_stops_at_the_place_that_fails(rt: HostRuntime) -> Result<(), Fail> {
    let mut fail_at = Places::new(rt.alloc());
    fail_at.push(3)?;
    let mut source = MemSource::new(five(rt.alloc())?, fail_at);
    takes(&rt, &mut source)
}

/// What a desk that never fails tells of each name after a copy.
fn told(rt: &impl Abort, desk: &StillDesk) {
    assert_eq!(rt; desk.taken("a"), 5);
    assert_eq!(rt; desk.bytes_of("b"), Some(b"bytes".as_slice()));
    assert_eq!(rt; desk.bytes_of("c"), None);
}

#[test]
fn a_desk_that_never_fails_copies(rt: HostRuntime) -> Result<(), Fail> {
    let mut desk = StillDesk::new(rt.alloc());
    desk.put("a", five(rt.alloc())?)?;
    assert_eq!(rt; copy(&mut desk, "a", "b"), Ok(()));
    told(&rt, &desk);
    Ok(())
}
