ghost use Rattle.std.specs.Prelude.{◌≡◌, ◌+◌, ◌<◌, [], vec_len};
ghost use Rattle.unit_versions.specs.Owed.{IsOwed};

use edit_ops::Edit;
use std::alloc::Global;
use std::process::Abort;
use version_store::{History, Pin, Store};
use view_base::{OutOfMemory, Version};

/// Callers of one store, with their pins that are out.
pub(crate) struct Party {
    pub(crate) store: Store,
    pub(crate) pins: Vec<Pin>,
    ghost owed: { IsOwed store.history pins.items },
}

impl Party {
    /// Those of a store without pins.
    pub(crate) fn of(alloc: Global, store: Store) -> Party
        requires { store.history ≡ [] }
    {
        Party {
            store,
            pins: Vec::new(alloc),
        }
    }

    /// Pins the newest version, which it answers.
    pub(crate) fn pin(&mut self, who: u32) -> Result<Version, OutOfMemory> {
        self.pins.reserve(1)?;
        let pin = self.store.pin(who)?;
        let version = pin.version();
        self.pins.push(pin).unwrap();
        Ok(version)
    }

    /// Publishes an edit, which gives a class of at most 31.
    pub(crate) fn publish(
        &mut self,
        rt: &impl Abort,
        who: u32,
        edit: &Edit,
    ) -> Result<(Version, u64), OutOfMemory> {
        assert!(rt; edit.to <= 31);
        self.store.publish(who, edit)
    }

    /// Gives a pin back.
    pub(crate) fn unpin(&mut self, place: usize)
        requires { place < vec_len self.old.pins }
        ensures { vec_len self.new.pins + 1 ≡ vec_len self.old.pins }
    {
        let pin = self.pins.swap_remove(place);
        self.store.unpin(pin.who(), pin);
    }

    /// Gives every pin back.
    pub(crate) fn unpin_all(&mut self)
        ensures { vec_len self.new.pins ≡ 0 }
    {
        while !self.pins.is_empty() {
            self.unpin(0);
        }
    }

    /// The history, where no pin is out.
    pub(crate) fn end(self) -> History
        requires { vec_len self.pins ≡ 0 }
    {
        let Party { store, pins } = self;
        pins.destroy_empty();
        store.into_history()
    }
}
