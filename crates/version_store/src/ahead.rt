ghost use Rattle.std.specs.Prelude.{◌≡◌, ◌<◌, ◌≤◌, ◌^◌, ◌++◌, ◌∷◌, [], List, length, IfOk, OnOk, OnErr};
ghost use Rattle.std.specs.Arc.{arc_value};
ghost use Rattle.view_meaning.specs.Classes as meaning;
ghost use Rattle.view_meaning.specs.Survey.{record_count, format_of};
ghost use Rattle.class_pages.specs.Fitting.{EachFits};
ghost use Rattle.version_store.specs.Histories.{journal, IsLegal};
ghost use Rattle.version_store.specs.Sharing.{IsAhead, IsAheadIfNewest, IsAheadOf};
ghost use Rattle.version_store.specs.Store.{newest, with_entry};
ghost use Rattle.version_store.specs.declared.history.What.TheVariants as what;

use crate::indexed::IndexedSurvey;
use crate::store::Store;
use class_pages::Classes;
use edit_ops::Edit;
use std::alloc::Global;
use std::sync::Arc;
use view_base::{OutOfMemory, Version};

/// What an edit makes of a version, worked out before its turn.
#[derive(Drop)]
pub struct Ahead {
    /// The version that the edit changes.
    pub(crate) from: Version,
    /// The classes that it makes of it.
    pub(crate) classes: Arc<Classes>,
    /// How many records' classes it changes.
    pub(crate) count: u64,
}

impl Ahead {
    /// What an edit makes of the version `from`, which has these classes. A refusal is want of
    /// memory.
    pub(crate) fn of(
        alloc: Global,
        survey: &IndexedSurvey,
        from: Version,
        classes: &Classes,
        edit: &Edit,
    ) -> Result<Ahead, OutOfMemory>
        requires records { length classes.now ≡ record_count survey.now }
        requires fits { EachFits (format_of survey.now) classes.now }
        requires room { edit.now.to ≤ meaning.top_class (format_of survey.now) }
        ensures { IfOk result (λ ahead. IsAheadOf survey.now from classes.now edit.now ahead) }
    {
        let (classes, count) = survey.edited(alloc, classes, edit)?;
        Ok(Ahead {
            from,
            classes: Arc::new(alloc, classes)?,
            count,
        })
    }

    /// Publishes the edit: what was worked out is taken over where the version that it changes is
    /// still the newest, and else worked out again. A refusal is want of memory and leaves the store
    /// as it was.
    pub fn publish(
        self,
        store: &mut Store,
        who: u32,
        edit: &Edit,
    ) -> Result<(Version, u64), OutOfMemory>
        requires room { edit.now.to ≤ meaning.top_class (format_of store.old.bytes) }
        requires ahead { IsAheadIfNewest store.old.bytes (journal store.old.history) edit.now self }
        ensures published { OnOk result (store.new ≡ with_entry store.old who (what.Publish edit.now)) }
        ensures few { OnOk result (length store.new.history < 2 ^ 64) }
        ensures version { IfOk result (λ made. made.0 ≡ length (journal store.new.history)) }
        ensures count { IfOk result (λ made. made.1 ≡ meaning.changed (newest store.old) (newest store.new)) }
        ensures refused { OnErr result (store.new ≡ store.old) }
        ensures legal { IsLegal store.new.history }
    {
        if store.current() != self.from {
            return store.publish(who, edit);
        }
        let version = store.publish_made(who, edit, self.classes)?;
        Ok((version, self.count))
    }
}
