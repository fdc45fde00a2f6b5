use class_pages::Classes;
use edit_ops::Edit;
use std::alloc::Global;
use std::process::Abort;
use version_store::{Entry, Held, History, Store, What};
use view_base::{OutOfMemory, Version};

/// What a store's callers did, kept by hand.
#[derive(Drop)]
pub(crate) struct Told {
    /// An edit that may be published.
    edit: Edit,
    /// Another.
    other: Edit,
    /// The class of the one record in each version.
    classes: Vec<u8>,
    /// The pins that are out: who has each, and of which version it is.
    out: Vec<(u32, Version)>,
    /// All calls, in order.
    calls: Vec<Entry>,
}

impl Told {
    /// Before any call, where the record has class 2.
    pub(crate) fn new(alloc: Global, edit: Edit, other: Edit) -> Result<Told, OutOfMemory> {
        Ok(Told {
            edit,
            other,
            classes: vec![in alloc; 2u8; 1]?,
            out: Vec::new(alloc),
            calls: Vec::new(alloc),
        })
    }

    /// One of the two edits, as the number is even or odd.
    pub(crate) fn edit(&self, random: u32) -> Edit {
        if random % 2 == 0 {
            self.edit
        } else {
            self.other
        }
    }

    /// An edit was published, with this answer.
    pub(crate) fn publish(
        &mut self,
        rt: &impl Abort,
        who: u32,
        edit: &Edit,
        made: (Version, u64),
    ) -> Result<(), OutOfMemory> {
        let class = self.classes.last().copied();
        assert_eq!(rt; made.0, self.classes.len() as u64);
        assert_eq!(rt; made.1, u64::from(class != Some(edit.to)));
        self.classes.push(edit.to)?;
        self.calls.push(Entry {
            who,
            what: What::Publish(*edit),
        })?;
        Ok(())
    }

    /// This version was pinned.
    pub(crate) fn pin(
        &mut self,
        rt: &impl Abort,
        who: u32,
        version: Version,
    ) -> Result<(), OutOfMemory> {
        self.is_current(rt, version);
        self.out.push((who, version))?;
        self.calls.push(Entry {
            who,
            what: What::Pin,
        })?;
        Ok(())
    }

    /// A pin was given back, the last of which took its place.
    pub(crate) fn unpin(&mut self, rt: &impl Abort, place: usize) -> Result<(), OutOfMemory> {
        assert!(rt; place < self.out.len());
        let (who, version) = self.out.swap_remove(place);
        self.calls.push(Entry {
            who,
            what: What::Unpin(version),
        })?;
        Ok(())
    }

    /// How many pins of a version are out.
    fn pins(&self, version: Version) -> u64 {
        self.out.iter().filter(|pin| pin.1 == version).count() as u64
    }

    /// The store holds the versions with pins and the newest one, with their classes.
    pub(crate) fn agrees(&self, rt: &impl Abort, store: &Store) {
        let all = store.held();
        let mut place = 0;
        for version in 0..self.classes.len() {
            let pins = self.pins(version as u64);
            if pins > 0 || version + 1 == self.classes.len() {
                assert!(rt; place < all.len());
                assert!(rt; is_held(&all[place], version as u64, pins, self.classes[version]));
                place += 1;
            }
        }
        assert_eq!(rt; place, all.len());
    }

    /// This is the newest version.
    pub(crate) fn is_current(&self, rt: &impl Abort, version: Version) {
        assert!(rt; version < self.classes.len() as u64);
        assert_eq!(rt; version + 1, self.classes.len() as u64);
    }

    /// The history begins with the calls, and has an entry of each pin given back since.
    pub(crate) fn begins(&self, rt: &impl Abort, history: &History) {
        let all = history.as_slice();
        assert!(rt; self.calls.len() <= all.len());
        assert!(rt; &all[..self.calls.len()] == self.calls.as_slice());
        assert_eq!(rt; all.len() - self.calls.len(), self.out.len());
    }
}

/// Whether a held version has this number, so many pins and the record in this class.
fn is_held(held: &Held, version: Version, pins: u64, class: u8) -> bool {
    let classes: &Classes = &held.classes;
    (held.version, held.pins) == (version, pins)
        && classes.len() > 0
        && classes.class_at(0) == class
}
