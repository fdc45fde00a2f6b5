ghost use Rattle.std.specs.Prelude.{◌≡◌, ◌≢◌, ◌-◌, ◌++◌, ◌∷◌, [], ℕ, List, take, length, IsSome, OnOk, OnErr, MatchBool};
ghost use Rattle.std.specs.BTreeMap.{get_by_text};
ghost use Rattle.view_ends.specs.Ends.{AllStay, OthersStay};

use crate::failing::Places;
use std::alloc::Global;
use std::collections::BTreeMap;
use std::mem;
use view_base::OutOfMemory;

/// A call that a test can let fail.
#[derive(Clone, Copy, Debug, PartialEq, Eq)]
pub enum DeskCall {
    /// The opening of an input.
    OpenIn,
    /// The opening of an output.
    OpenOut,
    /// The keeping of an output.
    Keep,
    /// A take from an input, at a place in its bytes.
    Take,
    /// A give to an output, at a place in its bytes.
    Give,
}

/// The calls of one kind that have yet to fail: of each name their places.
#[derive(Drop)]
pub(crate) struct Plans {
    alloc: Global,
    places: BTreeMap<String, Places>,
}

impl Plans {
    ghost use Rattle.view_ends.specs.Plans.{places_of};

    /// No call is to fail.
    pub(crate) fn new(alloc: Global) -> Plans
        ensures { (name : List ℕ) → places_of result name ≡ [] }
    {
        Plans {
            alloc,
            places: BTreeMap::new(alloc),
        }
    }

    /// Plans that one more call of this name fails.
    #[tactic(auto, using(std::proofs::lemmas::Map::Text::text_keys))]
    pub(crate) fn add(&mut self, name: &str, at: u64) -> Result<(), OutOfMemory>
        ensures added { OnOk result (places_of self.new name.now ≡ places_of self.old name.now ++ at ∷ []) }
        ensures others { OthersStay (places_of self.old) (places_of self.new) name.now }
        ensures refused { OnErr result (AllStay (places_of self.old) (places_of self.new)) }
    {
        if self.places.contains_key(name) {
            return self.add_entered(name, at);
        }
        let mut places = Places::new(self.alloc);
        places.push(at)?;
        let key = String::from_str(self.alloc, name)?;
        self.places.insert(key, places)?;
        Ok(())
    }

    /// Plans one more call of a name of which calls were planned before.
    #[tactic(auto, using(std::proofs::lemmas::Map::Text::text_keys))]
    fn add_entered(&mut self, name: &str, at: u64) -> Result<(), OutOfMemory>
        requires { IsSome (get_by_text self.old.places name.now) }
        ensures added { OnOk result (places_of self.new name.now ≡ places_of self.old name.now ++ at ∷ []) }
        ensures others { OthersStay (places_of self.old) (places_of self.new) name.now }
        ensures refused { OnErr result (AllStay (places_of self.old) (places_of self.new)) }
    {
        match self.places.get_mut(name) {
            Some(places) => places.push(at),
            None => Ok(()),
        }
    }

    /// Whether a call of this name fails, which uses the last plan for it up.
    #[tactic(auto, using(std::proofs::lemmas::Map::Text::text_keys))]
    pub(crate) fn strike(&mut self, name: &str) -> bool
        ensures planned { MatchBool result (places_of self.old name.now ≢ []) (places_of self.old name.now ≡ []) }
        ensures used { places_of self.new name.now ≡ take (length (places_of self.old name.now) - 1) (places_of self.old name.now) }
        ensures others { OthersStay (places_of self.old) (places_of self.new) name.now }
    {
        match self.places.get_mut(name) {
            Some(places) if 0 < places.len() => {
                let left = places.len() - 1;
                places.cut(left);
                true
            }
            _ => false,
        }
    }

    /// The places that were planned of this name, of which none is planned any more.
    #[tactic(auto, using(std::proofs::lemmas::Map::Text::text_keys))]
    pub(crate) fn hand_on(&mut self, name: &str) -> Places
        ensures handed { result.items ≡ places_of self.old name.now }
        ensures gone { places_of self.new name.now ≡ [] }
        ensures others { OthersStay (places_of self.old) (places_of self.new) name.now }
    {
        let none = Places::new(self.alloc);
        match self.places.get_mut(name) {
            Some(places) => mem::replace(places, none),
            None => none,
        }
    }
}

/// The calls of a desk that have yet to fail.
#[derive(Drop)]
pub(crate) struct DeskPlans {
    pub(crate) open_in: Plans,
    pub(crate) open_out: Plans,
    pub(crate) keep: Plans,
    pub(crate) take: Plans,
    pub(crate) give: Plans,
}

impl DeskPlans {
    ghost use Rattle.view_ends.specs.Plans.{NonePlanned, Plan, planned};

    /// No call is to fail.
    pub(crate) fn new(alloc: Global) -> DeskPlans
        ensures { NonePlanned (planned result) }
    {
        DeskPlans {
            open_in: Plans::new(alloc),
            open_out: Plans::new(alloc),
            keep: Plans::new(alloc),
            take: Plans::new(alloc),
            give: Plans::new(alloc),
        }
    }

    /// Plans that one more call of this kind and name fails.
    pub(crate) fn add(&mut self, name: &str, call: DeskCall, at: u64) -> Result<(), OutOfMemory>
        ensures { Plan (planned self.old) (planned self.new) name.now call at result }
    {
        match call {
            DeskCall::OpenIn => self.open_in.add(name, at),
            DeskCall::OpenOut => self.open_out.add(name, at),
            DeskCall::Keep => self.keep.add(name, at),
            DeskCall::Take => self.take.add(name, at),
            DeskCall::Give => self.give.add(name, at),
        }
    }
}
