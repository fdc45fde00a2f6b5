ghost use Rattle.std.specs.Prelude.{◌≡◌, ◌+◌, ◌^◌, ◌-◌, ◌<◌, ◌≤◌, ◌⊎◌, true, false, [], length, map, All, Contains, None, IfOk, IfErr, OnOk, OnErr};
ghost use Rattle.std.specs.Arc.{arc_value};
ghost use mathlib.Core.List.{IsPrefix};
ghost use Rattle.class_pages.specs.Fitting.{EachFits};
ghost use Rattle.turn_gate.specs.Meaning.{IsSettled, made_by, new_pass, root_pass, with_joined};
ghost use Rattle.version_store.specs.Histories.{journal, HasPinned};
ghost use Rattle.version_store.specs.Sharing.{IsAhead, MakesEntry, MakesNone, changed_by_last};
ghost use Rattle.version_store.specs.Store.{newest_pinned};
ghost use Rattle.version_store.specs.declared.history.What.TheVariants as what;
ghost use Rattle.view_meaning.specs.Classes as meaning;
ghost use Rattle.view_meaning.specs.Survey.{format_of, record_count};

use crate::ahead::Ahead;
use crate::indexed::IndexedSurvey;
use crate::pin::Pin;
use crate::versioned::Versioned;
use class_pages::Classes;
use edit_ops::Edit;
use std::alloc::Global;
use std::marker::Model;
use std::sync::{Arc, Wait};
use turn_gate::{Gate, Pass};
use view_base::{OutOfMemory, Version};

/// A value with a store of versions that callers share by `&`, each with a pass of its own. Contracts
/// see the gate before the value.
#[derive(Drop)]
pub struct SharedOver<V: Versioned> {
    alloc: Global,
    gate: Gate<V>,
    survey: IndexedSurvey,
}

impl<V: Versioned> Model for SharedOver<V> {
    ghost use Rattle.std.specs.Prelude.{◌≡◌};
    ghost use Rattle.turn_gate.specs.Meaning.{Gated};

    ghost Value = { Gated V };

    ghost view = { λ s. s.gate };

    ghost invariant = { λ s. s.survey ≡ V.bytes s.gate.first };
}

impl<V: Versioned> SharedOver<V> {
    /// A value without entries that callers share, and its root pass. The refusal is want of memory,
    /// and hands the value back.
    pub fn new(alloc: Global, value: V) -> Result<(SharedOver<V>, Pass<V::Entry>), (OutOfMemory, V)>
        requires { V.entries value ≡ [] }
        ensures first { IfOk result (λ r. r.0.first ≡ value) }
        ensures pass { IfOk result (λ r. r.1 ≡ root_pass r.0.name) }
        ensures settled { IfOk result (λ r. IsSettled (V.replays (V.base value)) V.maker r.1) }
        ensures refused { IfErr result (λ r. r.1 ≡ value) }
    {
        let Ok(survey) = value.store().survey().share() else {
            return Err((OutOfMemory, value));
        };
        let (gate, pass) = Gate::new(alloc, value)?;
        Ok((
            SharedOver {
                alloc,
                gate,
                survey,
            },
            pass,
        ))
    }

    /// A new pass with the next number, which has seen what the root has seen and has made nothing.
    /// Takes no memory.
    pub fn split(&self, root: &mut Pass<V::Entry>) -> Pass<V::Entry>
        requires gate { root.old.gate ≡ self.now.name }
        requires root { root.old.root ≡ true }
        requires given { root.old.given < 2 ^ 32 - 1 }
        ensures root { root.new ≡ record root.old { out = root.old.out + 1; given = root.old.given + 1 } }
        ensures pass { result ≡ new_pass self.now.name (root.old.given + 1) root.old.seen }
        ensures settled { IsSettled (V.replays (V.base self.now.first)) V.maker result }
    {
        self.gate.split(root)
    }

    /// Publishes an edit, which makes the next version, and answers that version, how many records'
    /// classes differ from the version before, and what else the value tells. Others' turns go on
    /// while the classes are worked out; where another edit came between, they are worked out again
    /// in the turn. A refusal is want of memory: it makes no entry.
    pub fn publish(
        &self,
        rt: &impl Wait,
        pass: &mut Pass<V::Entry>,
        edit: &Edit,
    ) -> Result<(Version, u64, V::Outcome), OutOfMemory>
        requires gate { pass.old.gate ≡ self.now.name }
        requires outside { pass.old.turn ≡ None }
        requires room { edit.now.to ≤ meaning.top_class (format_of (V.bytes self.now.first)) }
        ensures settled { IsSettled (V.replays (V.base self.now.first)) V.maker pass.new }
        ensures made { IfOk result (λ made. MakesEntry (V.published pass.old.who edit.now made.2) pass.old pass.new) }
        ensures version { IfOk result (λ made. made.0 ≡ length (journal (V.history pass.new.seen))) }
        ensures count { IfOk result (λ made. made.1 ≡ changed_by_last (V.bytes self.now.first) (journal (V.history pass.new.seen))) }
        ensures refused { OnErr result (MakesNone pass.old pass.new) }
    {
        let (from, classes) = self.newest(rt, pass)?;
        let ahead = Ahead::of(self.alloc, &self.survey, from, &classes, edit)?;
        self.publish_ahead(rt, pass, edit, ahead)
    }

    /// Pins the newest version: it is held until the pin is given back. A refusal is want of memory:
    /// it makes no entry.
    pub fn pin(&self, rt: &impl Wait, pass: &mut Pass<V::Entry>) -> Result<Pin, OutOfMemory>
        requires gate { pass.old.gate ≡ self.now.name }
        requires outside { pass.old.turn ≡ None }
        ensures settled { IsSettled (V.replays (V.base self.now.first)) V.maker pass.new }
        ensures made { OnOk result (MakesEntry (V.plain pass.old.who what.Pin) pass.old pass.new) }
        ensures pin { IfOk result (λ pin. pin ≡ newest_pinned pass.old.who (V.bytes self.now.first) (journal (V.history pass.new.seen))) }
        ensures size { IfOk result (λ pin. length pin.classes ≡ record_count (V.bytes self.now.first)) }
        ensures top { IfOk result (λ pin. EachFits (format_of (V.bytes self.now.first)) pin.classes) }
        ensures refused { OnErr result (MakesNone pass.old pass.new) }
    {
        let (mut turn, mut value) = self.gate.enter(rt, pass);
        let answer = value.pin(pass.who());
        if answer.is_ok() {
            self.gate.note(pass, &mut turn, &value);
        }
        self.gate.leave(pass, turn, value);
        answer
    }

    /// Gives a pin back. The caller has pinned the version more often than given it back. Takes no
    /// memory.
    pub fn unpin(&self, rt: &impl Wait, pass: &mut Pass<V::Entry>, pin: Pin)
        requires gate { pass.old.gate ≡ self.now.name }
        requires outside { pass.old.turn ≡ None }
        requires pinned { HasPinned (V.history pass.old.seen) pass.old.who pin.version }
        ensures settled { IsSettled (V.replays (V.base self.now.first)) V.maker pass.new }
        ensures made { MakesEntry (V.plain pass.old.who (what.Unpin pin.version)) pass.old pass.new }
    {
        let (mut turn, mut value) = self.gate.enter(rt, pass);
        value.unpin(pass.who(), pin);
        self.gate.note(pass, &mut turn, &value);
        self.gate.leave(pass, turn, value);
    }

    /// Takes a pass back. The root has then seen the longer of the two lists, of which the other is a
    /// beginning, and keeps the pass's number with the entries that it made. Takes no memory.
    pub fn join(&self, root: &mut Pass<V::Entry>, pass: Pass<V::Entry>)
        requires gate { (root.old.gate ≡ self.now.name) × (pass.gate ≡ self.now.name) }
        requires root { (root.old.root ≡ true) × (pass.root ≡ false) }
        requires outside { (root.old.turn ≡ None) × (pass.turn ≡ None) }
        ensures root { root.new ≡ with_joined root.old pass }
        ensures seen { IsPrefix root.old.seen root.new.seen × IsPrefix pass.seen root.new.seen }
        ensures settled { IsSettled (V.replays (V.base self.now.first)) V.maker root.new }
    {
        self.gate.join(root, pass);
    }

    /// The value, once every pass is joined. Its entries are what the root has seen. Takes no memory.
    pub fn close(self, root: Pass<V::Entry>) -> V
        requires gate { root.gate ≡ self.name }
        requires root { root.root ≡ true }
        requires out { root.out ≡ 0 }
        requires outside { root.turn ≡ None }
        ensures base { V.base result ≡ V.base self.first }
        ensures entries { V.entries result ≡ root.seen }
        ensures settled { IsSettled (V.replays (V.base self.first)) V.maker root }
        ensures makers { All (λ e. (V.maker e ≡ 0) ⊎ Contains (map (λ k. k.0) root.kept) (V.maker e)) root.seen }
        ensures kept { All (λ k. made_by V.maker k.0 root.seen ≡ k.1) root.kept }
    {
        self.gate.close(root)
    }

    /// The newest version and its classes, read in a short turn.
    fn newest(
        &self,
        rt: &impl Wait,
        pass: &mut Pass<V::Entry>,
    ) -> Result<(Version, Arc<Classes>), OutOfMemory>
        requires gate { pass.old.gate ≡ self.now.name }
        requires outside { pass.old.turn ≡ None }
        ensures settled { IsSettled (V.replays (V.base self.now.first)) V.maker pass.new }
        ensures none { MakesNone pass.old pass.new }
        ensures version { IfOk result (λ newest. newest.0 ≡ length (journal (V.history pass.new.seen))) }
        ensures classes { IfOk result (λ newest. arc_value newest.1 ≡ meaning.classes (V.bytes self.now.first) (journal (V.history pass.new.seen))) }
        ensures size { IfOk result (λ newest. length (arc_value newest.1) ≡ record_count (V.bytes self.now.first)) }
        ensures top { IfOk result (λ newest. EachFits (format_of (V.bytes self.now.first)) (arc_value newest.1)) }
    {
        let (turn, value) = self.gate.enter(rt, pass);
        let version = value.store().current();
        let classes = Arc::try_clone(value.store().newest());
        self.gate.leave(pass, turn, value);
        Ok((version, classes?))
    }

    /// Publishes an edit that was worked out from a version that the pass has seen.
    fn publish_ahead(
        &self,
        rt: &impl Wait,
        pass: &mut Pass<V::Entry>,
        edit: &Edit,
        ahead: Ahead,
    ) -> Result<(Version, u64, V::Outcome), OutOfMemory>
        requires gate { pass.old.gate ≡ self.now.name }
        requires outside { pass.old.turn ≡ None }
        requires room { edit.now.to ≤ meaning.top_class (format_of (V.bytes self.now.first)) }
        requires ahead { IsAhead (V.bytes self.now.first) (journal (V.history pass.old.seen)) edit.now ahead }
        ensures settled { IsSettled (V.replays (V.base self.now.first)) V.maker pass.new }
        ensures made { IfOk result (λ made. MakesEntry (V.published pass.old.who edit.now made.2) pass.old pass.new) }
        ensures version { IfOk result (λ made. made.0 ≡ length (journal (V.history pass.new.seen))) }
        ensures count { IfOk result (λ made. made.1 ≡ changed_by_last (V.bytes self.now.first) (journal (V.history pass.new.seen))) }
        ensures refused { OnErr result (MakesNone pass.old pass.new) }
    {
        let (mut turn, mut value) = self.gate.enter(rt, pass);
        let answer = value.publish_ahead(pass.who(), edit, ahead);
        if answer.is_ok() {
            self.gate.note(pass, &mut turn, &value);
        }
        self.gate.leave(pass, turn, value);
        answer
    }
}
