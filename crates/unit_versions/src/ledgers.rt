use pin_ledger::Pins;
use std::process::Abort;
use std::test::Fail;

#[test]
fn pins_are_counted_by_version(rt: HostRuntime) -> Result<(), Fail> {
    let mut pins = Pins::new(rt.alloc());
    let Ok(()) = pins.reserve() else {
        return Err("memory".into());
    };
    pins.add(3);
    pins.add(3);
    let Ok(()) = pins.reserve() else {
        return Err("memory".into());
    };
    pins.add(0);
    pins.take(3);
    shows(&rt, &pins, [true, false, false, true]);
    pins.take(3);
    shows(&rt, &pins, [true, false, false, false]);
    pins.take(0);
    shows(&rt, &pins, [false, false, false, false]);
    Ok(())
}

fn shows<R: Abort>(rt: &R, pins: &Pins, pinned: [bool; 4]) {
    assert!(rt;
        [
            pins.is_pinned(0),
            pins.is_pinned(1),
            pins.is_pinned(2),
            pins.is_pinned(3)
        ] == pinned
    );
}
