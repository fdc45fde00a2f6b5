ghost use Rattle.std.specs.Prelude.{◌≡◌, ◌+◌, ◌-◌, ◌^◌, ◌<◌, ◌≤◌, ◌⊎◌, true, false, [], length, map, All, Contains, None, IfOk, OnOk, OnErr};
ghost use Rattle.std.specs.Arc.{arc_value};
ghost use mathlib.Core.List.{IsPrefix};
ghost use Rattle.class_pages.specs.Fitting.{EachFits};
ghost use Rattle.grid_blocks.specs.Blocks.{IsBlocks};
ghost use Rattle.turn_gate.specs.Meaning.{made_by, new_pass, root_pass, with_joined};
ghost use Rattle.version_store.specs.Histories.{journal, HasPinned};
ghost use Rattle.version_store.specs.Sharing.{IsOwn, MakesOne, MakesNone, changed_by_last, maker};
ghost use Rattle.version_store.specs.Store.{newest_pinned};
ghost use Rattle.version_store.specs.declared.history.What.TheVariants as what;
ghost use Rattle.view_meaning.specs.Classes as meaning;
ghost use Rattle.view_meaning.specs.Survey.{format_of, record_count};

use crate::history::Entry;
use crate::over::SharedOver;
use crate::pin::Pin;
use crate::store::Store;
use edit_ops::Edit;
use grid_blocks::Blocks;
use las_survey::Survey;
use std::alloc::Global;
use std::marker::Model;
use std::sync::{Arc, Wait};
use view_base::{OutOfMemory, Version};

/// A caller's right to call a shared store. Contracts see what it has seen of the history and which
/// entries it made.
pub type Pass = turn_gate::Pass<Entry>;

/// A store that callers share by `&`, each with a pass of its own.
#[derive(Drop)]
pub struct Shared {
    over: SharedOver<Store>,
}

impl Model for Shared {
    ghost use Rattle.version_store.specs.Sharing.{SharedStore};

    ghost Value = { SharedStore };

    ghost view = { λ s. record { name = s.over.name; bytes = s.over.first.bytes } };
}

impl Shared {
    /// A store over a survey with no entries, and its root pass. The refusal is want of memory.
    pub fn new(alloc: Global, survey: Arc<Survey>) -> Result<(Shared, Pass), OutOfMemory>
        ensures bytes { IfOk result (λ r. r.0.bytes ≡ arc_value survey) }
        ensures pass { IfOk result (λ r. r.1 ≡ root_pass r.0.name) }
        ensures own { IfOk result (λ r. IsOwn r.1) }
    {
        Shared::of(alloc, Store::new(alloc, survey)?)
    }

    /// A store over a survey and blocks of its records with no entries, and its root pass. An edit
    /// looks only at the records of the blocks whose box its area meets. The refusal is want of
    /// memory.
    pub fn over(
        alloc: Global,
        survey: Arc<Survey>,
        blocks: Arc<Blocks>,
    ) -> Result<(Shared, Pass), OutOfMemory>
        requires { IsBlocks (arc_value survey) (arc_value blocks) }
        ensures bytes { IfOk result (λ r. r.0.bytes ≡ arc_value survey) }
        ensures pass { IfOk result (λ r. r.1 ≡ root_pass r.0.name) }
        ensures own { IfOk result (λ r. IsOwn r.1) }
    {
        Shared::of(alloc, Store::over(alloc, survey, blocks)?)
    }

    /// A store that callers share, and its root pass.
    fn of(alloc: Global, store: Store) -> Result<(Shared, Pass), OutOfMemory>
        requires { store.history ≡ [] }
        ensures bytes { IfOk result (λ r. r.0.bytes ≡ store.bytes) }
        ensures pass { IfOk result (λ r. r.1 ≡ root_pass r.0.name) }
        ensures own { IfOk result (λ r. IsOwn r.1) }
    {
        match SharedOver::new(alloc, store) {
            Ok((over, pass)) => Ok((Shared { over }, pass)),
            Err((refusal, _)) => Err(refusal),
        }
    }

    /// A new pass with the next number, which has seen what the root has seen and has made nothing.
    /// Takes no memory.
    pub fn split(&self, root: &mut Pass) -> Pass
        requires gate { root.old.gate ≡ self.now.name }
        requires root { root.old.root ≡ true }
        requires given { root.old.given < 2 ^ 32 - 1 }
        ensures root { root.new ≡ record root.old { out = root.old.out + 1; given = root.old.given + 1 } }
        ensures pass { result ≡ new_pass self.now.name (root.old.given + 1) root.old.seen }
        ensures own { IsOwn result }
    {
        self.over.split(root)
    }

    /// Publishes an edit, which makes the next version, and answers that version and how many
    /// records' classes differ from the version before. Others' turns go on while the classes are
    /// worked out; where another edit came between, they are worked out again in the turn. A refusal
    /// is want of memory: it makes no entry.
    pub fn publish(
        &self,
        rt: &impl Wait,
        pass: &mut Pass,
        edit: &Edit,
    ) -> Result<(Version, u64), OutOfMemory>
        requires gate { pass.old.gate ≡ self.now.name }
        requires outside { pass.old.turn ≡ None }
        requires room { edit.now.to ≤ meaning.top_class (format_of self.now.bytes) }
        ensures own { IsOwn pass.new }
        ensures made { OnOk result (MakesOne (what.Publish edit.now) pass.old pass.new) }
        ensures version { IfOk result (λ made. made.0 ≡ length (journal pass.new.seen)) }
        ensures count { IfOk result (λ made. made.1 ≡ changed_by_last self.now.bytes (journal pass.new.seen)) }
        ensures refused { OnErr result (MakesNone pass.old pass.new) }
    {
        let (version, count, ()) = self.over.publish(rt, pass, edit)?;
        Ok((version, count))
    }

    /// Pins the newest version: it is held until the pin is given back. A refusal is want of memory:
    /// it makes no entry.
    pub fn pin(&self, rt: &impl Wait, pass: &mut Pass) -> Result<Pin, OutOfMemory>
        requires gate { pass.old.gate ≡ self.now.name }
        requires outside { pass.old.turn ≡ None }
        ensures own { IsOwn pass.new }
        ensures made { OnOk result (MakesOne what.Pin pass.old pass.new) }
        ensures pin { IfOk result (λ pin. pin ≡ newest_pinned pass.old.who self.now.bytes (journal pass.new.seen)) }
        ensures size { IfOk result (λ pin. length pin.classes ≡ record_count self.now.bytes) }
        ensures top { IfOk result (λ pin. EachFits (format_of self.now.bytes) pin.classes) }
        ensures refused { OnErr result (MakesNone pass.old pass.new) }
    {
        self.over.pin(rt, pass)
    }

    /// Gives a pin back. The caller has pinned the version more often than given it back. Takes no
    /// memory.
    pub fn unpin(&self, rt: &impl Wait, pass: &mut Pass, pin: Pin)
        requires gate { pass.old.gate ≡ self.now.name }
        requires outside { pass.old.turn ≡ None }
        requires pinned { HasPinned pass.old.seen pass.old.who pin.version }
        ensures own { IsOwn pass.new }
        ensures made { MakesOne (what.Unpin pin.version) pass.old pass.new }
    {
        self.over.unpin(rt, pass, pin);
    }

    /// Takes a pass back. The root has then seen the longer of the two lists, of which the other is a
    /// beginning, and keeps the pass's number with the entries that it made. Takes no memory.
    pub fn join(&self, root: &mut Pass, pass: Pass)
        requires gate { (root.old.gate ≡ self.now.name) × (pass.gate ≡ self.now.name) }
        requires root { (root.old.root ≡ true) × (pass.root ≡ false) }
        requires outside { (root.old.turn ≡ None) × (pass.turn ≡ None) }
        ensures root { root.new ≡ with_joined root.old pass }
        ensures seen { IsPrefix root.old.seen root.new.seen × IsPrefix pass.seen root.new.seen }
        ensures own { IsOwn root.new }
    {
        self.over.join(root, pass);
    }

    /// The store, once every pass is joined. Its history is what the root has seen. Takes no memory.
    pub fn close(self, root: Pass) -> Store
        requires gate { root.gate ≡ self.name }
        requires root { root.root ≡ true }
        requires out { root.out ≡ 0 }
        requires outside { root.turn ≡ None }
        ensures bytes { result.bytes ≡ self.bytes }
        ensures history { result.history ≡ root.seen }
        ensures own { IsOwn root }
        ensures makers { All (λ e. (e.who ≡ 0) ⊎ Contains (map (λ k. k.0) root.kept) e.who) root.seen }
        ensures kept { All (λ k. made_by maker k.0 root.seen ≡ k.1) root.kept }
    {
        self.over.close(root)
    }
}
