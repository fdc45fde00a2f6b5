//! Callers on one thread, against a list of their calls that is kept by hand.
ghost use Rattle.std.specs.Prelude.{◌≡◌, [], IfOk};

use crate::party::Party;
use crate::surveys::survey;
use crate::told::Told;
use edit_ops::{Edit, read_edit};
use std::alloc::Global;
use std::process::Abort;
use std::sync::Arc;
use std::test::Fail;
use version_store::Store;
use view_base::{OutOfMemory, Version};

/// The store of a survey of one record.
fn store(alloc: Global) -> Result<Store, Fail>
    ensures { IfOk result (λ store. store.history ≡ []) }
{
    Ok(Store::new(alloc, Arc::new(alloc, survey(alloc)?)?)?)
}

/// The edit that gives the record class 6.
fn edit() -> Result<Edit, Fail> {
    Ok(read_edit(b"edit 0 0 0 9 9 9 all 6", 0)?)
}

/// The edit that gives the record class 9.
fn other_edit() -> Result<Edit, Fail> {
    Ok(read_edit(b"edit 0 0 0 9 9 9 all 9", 0)?)
}

/// Publishes an edit so many times.
fn publish_all(
    rt: &impl Abort,
    store: &mut Store,
    edit: &Edit,
    times: u32,
) -> Result<(), OutOfMemory> {
    assert!(rt; edit.to <= 31);
    for _ in 0..times {
        store.publish(2, edit)?;
    }
    Ok(())
}

/// Whether these versions are held, each with so many pins.
fn shows(store: &Store, wanted: &[(Version, u64)]) -> bool {
    let held = store.held();
    if held.len() != wanted.len() {
        return false;
    }
    for i in 0..held.len() {
        if (held[i].version, held[i].pins) != wanted[i] {
            return false;
        }
    }
    true
}

#[test]
fn after_edits_without_pins_one_version_is_held(rt: HostRuntime) -> Result<(), Fail> {
    let mut store = store(rt.alloc())?;
    publish_all(&rt, &mut store, &edit()?, 1000)?;
    assert!(rt; shows(&store, &[(1000, 0)]));
    Ok(())
}

/// Caller 1 pins, and caller 2 publishes 100 edits.
fn pin_and_publish(rt: &impl Abort, party: &mut Party, edit: &Edit) -> Result<(), OutOfMemory> {
    party.pin(1)?;
    for _ in 0..100u32 {
        party.publish(rt, 2, edit)?;
    }
    Ok(())
}

#[test]
fn a_pinned_version_is_held_until_it_is_given_back(rt: HostRuntime) -> Result<(), Fail> {
    let edit = edit()?;
    let mut party = Party::of(rt.alloc(), store(rt.alloc())?);
    let called = pin_and_publish(&rt, &mut party, &edit);
    let before = shows(&party.store, &[(0, 1), (100, 0)]);
    party.unpin_all();
    let after = shows(&party.store, &[(100, 0)]);
    party.end();
    called?;
    assert!(rt; before);
    assert!(rt; after);
    Ok(())
}

/// Five callers make 1000 calls, each of which the list kept by hand agrees with.
fn walk(rt: &impl Abort, party: &mut Party, told: &mut Told) -> Result<(), OutOfMemory> {
    let mut random = 1u32;
    for _ in 0..1000u32 {
        random = random.wrapping_mul(1664525).wrapping_add(1013904223);
        step(rt, party, told, random >> 8)?;
        told.agrees(rt, &party.store);
        told.is_current(rt, party.store.current());
    }
    Ok(())
}

/// One call, which a random number chooses.
fn step(
    rt: &impl Abort,
    party: &mut Party,
    told: &mut Told,
    random: u32,
) -> Result<(), OutOfMemory> {
    let who = 1 + random % 5;
    match random / 5 % 3 {
        0 => {
            let edit = told.edit(random / 15);
            let made = party.publish(rt, who, &edit)?;
            told.publish(rt, who, &edit, made)
        }
        1 => {
            let version = party.pin(who)?;
            told.pin(rt, who, version)
        }
        _ => unpin(rt, party, told, random / 15),
    }
}

/// Gives one of the pins back, where there is one.
fn unpin(
    rt: &impl Abort,
    party: &mut Party,
    told: &mut Told,
    random: u32,
) -> Result<(), OutOfMemory> {
    let pins = party.pins.len();
    if pins == 0 {
        return Ok(());
    }
    let place = random as usize % pins;
    party.unpin(place);
    told.unpin(rt, place)
}

#[test]
fn a_thousand_calls_of_five_callers_are_as_by_hand(rt: HostRuntime) -> Result<(), Fail> {
    let mut told = Told::new(rt.alloc(), edit()?, other_edit()?)?;
    let mut party = Party::of(rt.alloc(), store(rt.alloc())?);
    let walked = walk(&rt, &mut party, &mut told);
    party.unpin_all();
    let history = party.end();
    walked?;
    told.begins(&rt, &history);
    Ok(())
}
