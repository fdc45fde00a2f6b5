ghost use Rattle.std.specs.Prelude.{◌≡◌, ◌+◌, ◌-◌, ◌^◌, ◌<◌, min, List, ℕ, OnOk};
ghost use Rattle.view_ends.specs.Ends.{AllStay, OthersStay, NoneForgotten};

use std::alloc::Global;
use std::collections::BTreeMap;
use view_base::OutOfMemory;

/// What a desk counted of one name, each count up to the last value of its type, and whether the
/// name was opened.
#[derive(Clone, Copy, Debug, PartialEq, Eq)]
pub(crate) struct Counts {
    pub(crate) unopened: u64,
    pub(crate) read_faults: u64,
    pub(crate) write_faults: u64,
    pub(crate) taken: u64,
    pub(crate) unkept: u64,
    pub(crate) known: bool,
}

/// Nothing counted.
pub(crate) const NOTHING: Counts = Counts {
    unopened: 0,
    read_faults: 0,
    write_faults: 0,
    taken: 0,
    unkept: 0,
    known: false,
};

/// A name that was opened.
pub(crate) const OPENED: Counts = Counts {
    known: true,
    ..NOTHING
};

/// A name that could not be opened for reading.
pub(crate) const UNOPENED: Counts = Counts {
    unopened: 1,
    ..NOTHING
};

/// A name that could not be opened for writing.
pub(crate) const UNWRITTEN: Counts = Counts {
    write_faults: 1,
    ..NOTHING
};

impl Counts {
    ghost use Rattle.view_ends.specs.Ledger.{AreCounts, nothing_counted, plus};

    /// The counts of an output that failed so often, and then could not be kept.
    pub(crate) fn refused(faults: u64) -> Counts
        ensures { result ≡ record nothing_counted { write_faults = min (faults + 1) (2 ^ 64 - 1); unkept = 1 } }
    {
        Counts {
            write_faults: faults.saturating_add(1),
            unkept: 1,
            ..NOTHING
        }
    }

    /// These counts and what comes to them.
    fn plus(self, more: Counts) -> Counts
        ensures fits { AreCounts self }
        ensures sum { result ≡ plus self more }
    {
        Counts {
            unopened: self.unopened.saturating_add(more.unopened),
            read_faults: self.read_faults.saturating_add(more.read_faults),
            write_faults: self.write_faults.saturating_add(more.write_faults),
            taken: self.taken.saturating_add(more.taken),
            unkept: self.unkept.saturating_add(more.unkept),
            known: self.known || more.known,
        }
    }
}

/// The counts of each name that was entered. A name that wasn't has all counts 0.
#[derive(Drop)]
pub(crate) struct Ledger {
    alloc: Global,
    counts: BTreeMap<String, Counts>,
}

impl Ledger {
    ghost use Rattle.view_ends.specs.Ledger.{counts_of, nothing_counted, IsEntered, AreCounts, plus};

    /// No name is entered.
    pub(crate) fn new(alloc: Global) -> Ledger
        ensures { (name : List ℕ) → counts_of result name ≡ nothing_counted }
    {
        Ledger {
            alloc,
            counts: BTreeMap::new(alloc),
        }
    }

    /// The counts of a name.
    pub(crate) fn of(&self, name: &str) -> Counts
        ensures { result ≡ counts_of self.now name.now }
    {
        self.counts.get(name).copied().unwrap_or(NOTHING)
    }

    /// Enters a name, so that its counts can change without memory.
    #[tactic(auto, using(std::proofs::lemmas::Map::Text::text_keys))]
    pub(crate) fn enter(&mut self, name: &str) -> Result<(), OutOfMemory>
        ensures entered { OnOk result (IsEntered self.new name.now) }
        ensures counts { AllStay (counts_of self.old) (counts_of self.new) }
        ensures others { NoneForgotten (IsEntered self.old) (IsEntered self.new) }
    {
        if self.counts.contains_key(name) {
            return Ok(());
        }
        let key = String::from_str(self.alloc, name)?;
        self.counts.insert(key, NOTHING)?;
        Ok(())
    }

    /// Adds to the counts of a name that was entered.
    pub(crate) fn add(&mut self, name: &str, more: Counts)
        requires { IsEntered self.old name.now }
        ensures fits { AreCounts (counts_of self.old name.now) }
        ensures this { counts_of self.new name.now ≡ plus (counts_of self.old name.now) more }
        ensures others { OthersStay (counts_of self.old) (counts_of self.new) name.now }
        ensures entered { NoneForgotten (IsEntered self.old) (IsEntered self.new) }
    {
        let counts = self.of(name).plus(more);
        self.set(name, counts);
    }

    /// Sets the counts of a name that was entered.
    #[tactic(auto, using(std::proofs::lemmas::Map::Text::text_keys))]
    fn set(&mut self, name: &str, counts: Counts)
        requires { IsEntered self.old name.now }
        ensures this { counts_of self.new name.now ≡ counts }
        ensures others { OthersStay (counts_of self.old) (counts_of self.new) name.now }
        ensures entered { NoneForgotten (IsEntered self.old) (IsEntered self.new) }
    {
        if let Some(entry) = self.counts.get_mut(name) {
            *entry = counts;
        }
    }
}
