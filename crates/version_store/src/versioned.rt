ghost use Rattle.std.specs.Prelude.{◌≡◌, ◌≤◌, ◌<◌, ◌^◌, length, IfOk, OnOk, OnErr};
ghost use Rattle.class_pages.specs.Fitting.{EachFits};
ghost use Rattle.version_store.specs.Histories.{journal, HasPinned, IsLegal};
ghost use Rattle.version_store.specs.Sharing.{IsAheadIfNewest, changed_by_last, maker};
ghost use Rattle.version_store.specs.Store.{newest_pinned};
ghost use Rattle.version_store.specs.Versioned.{Gains, entry_by};
ghost use Rattle.version_store.specs.declared.history.What.TheVariants as what;
ghost use Rattle.view_meaning.specs.Classes as meaning;
ghost use Rattle.view_meaning.specs.Survey.{format_of, record_count};

use crate::ahead::Ahead;
use crate::history::Entry;
use crate::pin::Pin;
use crate::store::Store;
use edit_ops::Edit;
use turn_gate::Replayed;
use view_base::{OutOfMemory, Version};

/// A value in turns that has a store, and whose entries tell what happened to the versions. A publish
/// may tell more than the version, and its entry then has that outcome.
pub trait Versioned: Replayed {
    ghost use Rattle.std.specs.Prelude.{ℕ, List, ◌++◌};
    ghost use Rattle.turn_gate.specs.Meaning.{made_by};
    ghost use Rattle.version_store.specs.declared.history.Entry.{Entry};
    ghost use Rattle.version_store.specs.declared.history.What.{What};
    ghost use Rattle.version_store.specs.Sharing.{maker};
    ghost use Rattle.view_meaning.specs.Classes.{Edit};

    /// What a publish tells beside the version that it made.
    type Outcome: Drop;

    // The bytes of the survey, which go by the base.
    ghost bytes: { Self → List ℕ };

    // What happened to the versions, by the entries that the value stores.
    ghost history: { List Self.Entry → List Entry };

    // The entry of a pin or of an unpin.
    ghost plain: { ℕ → What → Self.Entry };

    // The entry of a published edit.
    ghost published: { ℕ → Edit → Self.Outcome → Self.Entry };

    /// The store.
    fn store(&self) -> &Store
        ensures { result.now ≡ record { bytes = bytes self.now; history = history (Self.entries self.now) } };

    /// Publishes an edit, as `Ahead::publish` does on the store. A refusal is want of memory, and
    /// leaves the value as it was.
    fn publish_ahead(
        &mut self,
        who: u32,
        edit: &Edit,
        ahead: Ahead,
    ) -> Result<(Version, u64, Self::Outcome), OutOfMemory>
        requires room { edit.now.to ≤ meaning.top_class (format_of (bytes self.old)) }
        requires ahead { IsAheadIfNewest (bytes self.old) (journal (history (Self.entries self.old))) edit.now ahead }
        ensures base { Self.base self.new ≡ Self.base self.old }
        ensures few { OnOk result (length (Self.entries self.new) < 2 ^ 64) }
        ensures made { IfOk result (λ made. Gains Self.maker history (published who edit.now made.2) (entry_by who (what.Publish edit.now)) (Self.entries self.old) (Self.entries self.new)) }
        ensures version { IfOk result (λ made. made.0 ≡ length (journal (history (Self.entries self.new)))) }
        ensures count { IfOk result (λ made. made.1 ≡ changed_by_last (bytes self.old) (journal (history (Self.entries self.new)))) }
        ensures refused { OnErr result (self.new ≡ self.old) };

    /// Pins the newest version, as the store does.
    fn pin(&mut self, who: u32) -> Result<Pin, OutOfMemory>
        ensures base { Self.base self.new ≡ Self.base self.old }
        ensures few { OnOk result (length (Self.entries self.new) < 2 ^ 64) }
        ensures made { OnOk result (Gains Self.maker history (plain who what.Pin) (entry_by who what.Pin) (Self.entries self.old) (Self.entries self.new)) }
        ensures pin { IfOk result (λ pin. pin ≡ newest_pinned who (bytes self.old) (journal (history (Self.entries self.old)))) }
        ensures size { IfOk result (λ pin. length pin.classes ≡ record_count (bytes self.old)) }
        ensures top { IfOk result (λ pin. EachFits (format_of (bytes self.old)) pin.classes) }
        ensures refused { OnErr result (self.new ≡ self.old) };

    /// Gives a pin back, as the store does.
    fn unpin(&mut self, who: u32, pin: Pin)
        requires pinned { HasPinned (history (Self.entries self.old)) who pin.version }
        ensures base { Self.base self.new ≡ Self.base self.old }
        ensures few { length (Self.entries self.new) < 2 ^ 64 }
        ensures made { Gains Self.maker history (plain who (what.Unpin pin.version)) (entry_by who (what.Unpin pin.version)) (Self.entries self.old) (Self.entries self.new) };

    // The survey is of the base.
    ghost bytes_of_base: { (one other : Self) → Self.base one ≡ Self.base other → bytes one ≡ bytes other };

    // What happened by two lists of entries, one after the other.
    ghost history_append: { (h more : List Self.Entry) → history (h ++ more) ≡ history h ++ history more };

    // What happened by a caller is what happened by its entries.
    ghost history_by: { (who : ℕ) (h : List Self.Entry) → made_by maker who (history h) ≡ history (made_by Self.maker who h) };
}

impl Replayed for Store {
    ghost use Rattle.std.specs.Prelude.{ℕ, List};

    type Entry = Entry;

    ghost Base = { List ℕ };

    ghost base = { λ store. store.bytes };

    ghost entries = { λ store. store.history };

    ghost replays = { λ bytes history. IsLegal history };

    ghost maker = { maker };

    fn tell(&self) {
        let _ = self.held();
    }
}

impl Versioned for Store {
    ghost use Rattle.std.specs.Prelude.{refl};

    type Outcome = ();

    ghost bytes = { λ store. store.bytes };

    ghost history = { λ history. history };

    ghost plain = { entry_by };

    ghost published = { λ who edit outcome. entry_by who (what.Publish edit) };

    ghost bytes_of_base = { λ one other same. same };

    ghost history_append = { λ h more. refl };

    ghost history_by = { λ who h. refl };

    fn store(&self) -> &Store {
        self
    }

    fn publish_ahead(
        &mut self,
        who: u32,
        edit: &Edit,
        ahead: Ahead,
    ) -> Result<(Version, u64, ()), OutOfMemory> {
        let (version, count) = ahead.publish(self, who, edit)?;
        Ok((version, count, ()))
    }

    fn pin(&mut self, who: u32) -> Result<Pin, OutOfMemory> {
        Store::pin(self, who)
    }

    fn unpin(&mut self, who: u32, pin: Pin) {
        Store::unpin(self, who, pin);
    }
}
