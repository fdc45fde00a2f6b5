ghost use Rattle.std.specs.Prelude.{◌≡◌, ◌<◌, ◌≤◌, ◌^◌, ◌++◌, ◌∷◌, [], length, map, All, IfOk, OnOk, OnErr};
ghost use Rattle.std.specs.Arc.{arc_value};
ghost use Rattle.class_pages.specs.Fitting.{EachFits};
ghost use Rattle.grid_blocks.specs.Blocks.{IsBlocks};
ghost use Rattle.view_meaning.specs.Classes as meaning;
ghost use Rattle.view_meaning.specs.Survey.{record_count, format_of};
ghost use Rattle.version_store.specs.Histories.{journal, held, IsLegal, HasPinned};
ghost use Rattle.version_store.specs.Store.{newest, with_entry, IsVersion, shown};
ghost use Rattle.version_store.specs.declared.history.What.TheVariants as what;

use crate::held::{Held, place_of};
use crate::history::{Entry, History, What, append};
use crate::indexed::IndexedSurvey;
use crate::pin::Pin;
use class_pages::Classes;
use edit_ops::Edit;
use grid_blocks::Blocks;
use las_survey::Survey;
use std::alloc::Global;
use std::marker::Model;
use std::sync::Arc;
use view_base::{OutOfMemory, Version};

/// The versions of a survey's classes. Version v has the first v published edits, and version 0 the
/// classes in the file. Contracts see the survey's bytes and the history; the type keeps that the
/// history is legal, and room for an entry of each pin that is out.
#[derive(Drop)]
pub struct Store {
    alloc: Global,
    survey: IndexedSurvey,
    held: Vec<Held>,
    history: Vec<Entry>,
    out: usize,
}

impl Model for Store {
    ghost use Rattle.std.specs.Prelude.{◌-◌, vec_capacity, vec_len};
    ghost use Rattle.version_store.specs.Store.{Stored, IsKept};

    ghost Value = { Stored };

    ghost view = { λ s. record { bytes = s.survey; history = s.history.items } };

    ghost invariant = { λ s. IsKept s.survey s.history.items s.held.items s.out (vec_capacity s.history - vec_len s.history) };
}

impl Store {
    /// The store of a survey whose classes are those in its file, with no entry in its history. A
    /// refusal is want of memory. Two passes over the records.
    pub fn new(alloc: Global, survey: Arc<Survey>) -> Result<Store, OutOfMemory>
        ensures { IfOk result (λ store. store ≡ record { bytes = arc_value survey; history = [] }) }
    {
        Store::of(alloc, IndexedSurvey::by_number(alloc, survey)?)
    }

    /// The store of a survey and blocks of its records, as `new` makes it. A refusal is want of
    /// memory. One pass over the records.
    pub fn over(
        alloc: Global,
        survey: Arc<Survey>,
        blocks: Arc<Blocks>,
    ) -> Result<Store, OutOfMemory>
        requires { IsBlocks (arc_value survey) (arc_value blocks) }
        ensures { IfOk result (λ store. store ≡ record { bytes = arc_value survey; history = [] }) }
    {
        Store::of(alloc, IndexedSurvey::by_blocks(survey, blocks))
    }

    /// The store of a survey with an index.
    fn of(alloc: Global, survey: IndexedSurvey) -> Result<Store, OutOfMemory>
        ensures { IfOk result (λ store. store ≡ record { bytes = survey; history = [] }) }
    {
        let classes = Arc::new(alloc, survey.base(alloc)?)?;
        let mut held = Vec::with_capacity(alloc, 1)?;
        held.push(Held {
            version: 0,
            pins: 0,
            classes,
        })
        .unwrap();
        Ok(Store {
            alloc,
            survey,
            held,
            history: Vec::new(alloc),
            out: 0,
        })
    }

    /// Publishes an edit, which makes the next version, and answers that version and how many
    /// records' classes differ from the version before. A version that is superseded and not pinned
    /// is held no more. A refusal is want of memory and leaves the store as it was.
    pub fn publish(&mut self, who: u32, edit: &Edit) -> Result<(Version, u64), OutOfMemory>
        requires room { edit.now.to ≤ meaning.top_class (format_of self.old.bytes) }
        ensures published { OnOk result (self.new ≡ with_entry self.old who (what.Publish edit.now)) }
        ensures few { OnOk result (length self.new.history < 2 ^ 64) }
        ensures version { IfOk result (λ made. made.0 ≡ length (journal self.new.history)) }
        ensures count { IfOk result (λ made. made.1 ≡ meaning.changed (newest self.old) (newest self.new)) }
        ensures refused { OnErr result (self.new ≡ self.old) }
        ensures legal { IsLegal self.new.history }
    {
        let (classes, count) = self.survey.edited(self.alloc, self.newest(), edit)?;
        let version = self.publish_made(who, edit, Arc::new(self.alloc, classes)?)?;
        Ok((version, count))
    }

    /// Publishes an edit as `publish` does, whose classes are made already.
    pub(crate) fn publish_made(
        &mut self,
        who: u32,
        edit: &Edit,
        classes: Arc<Classes>,
    ) -> Result<Version, OutOfMemory>
        requires classes { arc_value classes ≡ meaning.classes self.old.bytes (journal self.old.history ++ edit.now ∷ []) }
        requires size { length (arc_value classes) ≡ record_count self.old.bytes }
        requires top { EachFits (format_of self.old.bytes) (arc_value classes) }
        ensures published { OnOk result (self.new ≡ with_entry self.old who (what.Publish edit.now)) }
        ensures few { OnOk result (length self.new.history < 2 ^ 64) }
        ensures version { IfOk result (λ version. version ≡ length (journal self.new.history)) }
        ensures refused { OnErr result (self.new ≡ self.old) }
        ensures legal { IsLegal self.new.history }
    {
        self.history.reserve(self.out + 1)?;
        self.held.reserve(1)?;
        let version = self.current() + 1;
        append(&mut self.history, who, What::Publish(*edit));
        let last = self.held.len() - 1;
        let kept = last + usize::from(self.held[last].pins > 0);
        self.held.truncate(kept);
        self.held
            .push(Held {
                version,
                pins: 0,
                classes,
            })
            .unwrap();
        Ok(version)
    }

    /// Pins the newest version: it is held until the pin is given back. A refusal is want of memory
    /// and leaves the store as it was.
    pub fn pin(&mut self, who: u32) -> Result<Pin, OutOfMemory>
        ensures pinned { OnOk result (self.new ≡ with_entry self.old who what.Pin) }
        ensures few { OnOk result (length self.new.history < 2 ^ 64) }
        ensures pin { IfOk result (λ pin. pin ≡ record { who = who; version = length (journal self.old.history); classes = newest self.old }) }
        ensures size { IfOk result (λ pin. length pin.classes ≡ record_count self.old.bytes) }
        ensures top { IfOk result (λ pin. EachFits (format_of self.old.bytes) pin.classes) }
        ensures refused { OnErr result (self.new ≡ self.old) }
        ensures legal { IsLegal self.new.history }
    {
        let version = self.current();
        let classes = Arc::try_clone(self.newest())?;
        self.history.reserve(self.out + 2)?;
        append(&mut self.history, who, What::Pin);
        self.out += 1;
        let last = self.held.len() - 1;
        self.held[last].pins += 1;
        Ok(Pin {
            who,
            version,
            classes,
        })
    }

    /// Gives a pin back. Its version is held no more where this was its last pin and it is not the
    /// newest one. The caller has pinned the version more often than given it back. Takes no memory.
    pub fn unpin(&mut self, who: u32, pin: Pin)
        requires pinned { HasPinned self.old.history who pin.version }
        ensures few { length self.new.history < 2 ^ 64 }
        ensures unpinned { self.new ≡ with_entry self.old who (what.Unpin pin.version) }
        ensures legal { IsLegal self.new.history }
    {
        let Pin {
            who: _,
            version,
            classes: _,
        } = pin;
        let current = self.current();
        match place_of(&self.held, version) {
            Some(place) => {
                append(&mut self.history, who, What::Unpin(version));
                self.out -= 1;
                let stays = (version == current) | (self.held[place].pins > 1);
                if stays {
                    self.held[place].pins -= 1;
                } else {
                    self.held.remove(place);
                }
            }
            None => unreachable!(),
        }
    }

    /// The newest version: how many edits were published.
    pub fn current(&self) -> Version
        ensures { result ≡ length (journal self.now.history) }
    {
        self.last().version
    }

    /// The versions that are held, in rising order: those with pins that are out, and the newest one.
    pub fn held(&self) -> &[Held]
        ensures versions { map shown result.now ≡ held self.now.history }
        ensures classes { All (IsVersion self.now.bytes (journal self.now.history)) result.now }
        ensures legal { IsLegal self.now.history }
    {
        &self.held
    }

    /// The history, which takes no memory.
    pub fn into_history(self) -> History
        ensures history { result.items ≡ self.history }
        ensures legal { IsLegal self.history }
    {
        History::from_vec(self.history)
    }

    /// The survey, with its index.
    pub(crate) fn survey(&self) -> &IndexedSurvey
        ensures { result.now ≡ self.now.bytes }
    {
        &self.survey
    }

    /// The classes of the newest version.
    pub(crate) fn newest(&self) -> &Arc<Classes>
        ensures classes { arc_value result.now ≡ newest self.now }
        ensures size { length (arc_value result.now) ≡ record_count self.now.bytes }
        ensures top { EachFits (format_of self.now.bytes) (arc_value result.now) }
    {
        &self.last().classes
    }

    /// The newest version, which is the last that is held.
    fn last(&self) -> &Held
        ensures version { result.now.version ≡ length (journal self.now.history) }
        ensures classes { arc_value result.now.classes ≡ newest self.now }
        ensures size { length (arc_value result.now.classes) ≡ record_count self.now.bytes }
        ensures top { EachFits (format_of self.now.bytes) (arc_value result.now.classes) }
    {
        &self.held[self.held.len() - 1]
    }
}
