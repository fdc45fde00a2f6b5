ghost use Rattle.std.specs.Prelude.{◌≡◌, ◌≢◌, ℕ, ◌+◌, ◌-◌, ◌^◌, ◌<◌, ◌≤◌, ◌⊎◌, ◌↔◌, ◌==◌, IsTrue, OnOk};
ghost use Rattle.std.specs.List.{position};
ghost use Rattle.pin_ledger.specs.Ledger.{is_of, pins_of};

use std::alloc::Global;
use std::marker::Model;
use view_base::{OutOfMemory, Version};

/// A version with its pins that are out, of which there is at least one.
#[derive(Clone, Copy)]
pub(crate) struct Pinned {
    pub(crate) version: Version,
    pub(crate) pins: u64,
}

/// How many pins of each version are out. Contracts see the versions that have pins, of which
/// `pins_of` is the count, and `spare`: how many more versions get their first pin without memory.
#[derive(Drop)]
pub struct Pins {
    kept: Vec<Pinned>,
}

impl Model for Pins {
    ghost use Rattle.std.specs.Prelude.{◌-◌, vec_capacity, vec_len};
    ghost use Rattle.pin_ledger.specs.Ledger.{Ledger, EachHasPin};

    ghost Value = { Ledger };

    ghost view = { λ p. record { pinned = p.kept.items; spare = vec_capacity p.kept - vec_len p.kept } };

    ghost invariant = { λ p. EachHasPin p.kept.items };
}

impl Pins {
    /// The ledger of no pins, which takes no memory.
    pub fn new(alloc: Global) -> Pins
        ensures { (v : ℕ) → pins_of result.pinned v ≡ 0 }
    {
        Pins {
            kept: Vec::new(alloc),
        }
    }

    /// Makes room for the first pin of one more version. A refusal is want of memory.
    pub fn reserve(&mut self) -> Result<(), OutOfMemory>
        ensures same { self.new.pinned ≡ self.old.pinned }
        ensures room { OnOk result (1 ≤ self.new.spare) }
        ensures spare { self.old.spare ≤ self.new.spare }
    {
        self.kept.reserve(1)?;
        Ok(())
    }

    /// Counts one more pin of a version. There is room, or the version has a pin; it takes no memory.
    pub fn add(&mut self, version: Version)
        requires room { (1 ≤ self.old.spare) ⊎ (0 < pins_of self.old.pinned version) }
        requires few { pins_of self.old.pinned version < 2 ^ 64 - 1 }
        ensures added { pins_of self.new.pinned version ≡ pins_of self.old.pinned version + 1 }
        ensures others { (v : ℕ) → v ≢ version → pins_of self.new.pinned v ≡ pins_of self.old.pinned v }
        ensures spare { self.old.spare ≤ self.new.spare + 1 }
    {
        match place_of(self.kept.as_slice(), version) {
            Some(i) => self.kept[i].pins += 1,
            None => {
                let done = self.kept.push(Pinned { version, pins: 1 });
                done.unwrap();
            }
        }
    }

    /// Counts one pin of a version less, which has one. It takes no memory.
    pub fn take(&mut self, version: Version)
        requires { 0 < pins_of self.old.pinned version }
        ensures taken { pins_of self.new.pinned version + 1 ≡ pins_of self.old.pinned version }
        ensures others { (v : ℕ) → v ≢ version → pins_of self.new.pinned v ≡ pins_of self.old.pinned v }
        ensures spare { self.old.spare ≤ self.new.spare }
    {
        match place_of(self.kept.as_slice(), version) {
            Some(i) => {
                if self.kept[i].pins == 1 {
                    self.kept.swap_remove(i);
                } else {
                    self.kept[i].pins -= 1;
                }
            }
            None => unreachable!(),
        }
    }

    /// Whether the version has a pin that is out.
    pub fn is_pinned(&self, version: Version) -> bool
        ensures { IsTrue result ↔ (0 < pins_of self.now.pinned version) }
    {
        place_of(self.kept.as_slice(), version).is_some()
    }
}

/// The place of a version among those with pins.
fn place_of(kept: &[Pinned], version: Version) -> Option<usize>
    ensures { result ≡ position (is_of version) kept.now }
{
    kept.iter().position(|at| at.version == version)
}
