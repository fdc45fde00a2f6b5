ghost use Rattle.std.specs.Prelude.{IsSome, ◌≡◌, ℕ, List, Some, None, OnOk, OnErr, IfOk, MatchOption};
ghost use Rattle.std.specs.Option.{option_map};
ghost use Rattle.view_ends.specs.Ends.{AllStay, OthersStay};

use std::alloc::Global;
use std::collections::BTreeMap;
use view_base::{Bytes, OutOfMemory};

/// Files by name in memory.
#[derive(Drop)]
pub(crate) struct Files {
    alloc: Global,
    files: BTreeMap<String, Bytes>,
}

impl Files {
    ghost use Rattle.view_ends.specs.Files.{file_of};

    /// No files.
    pub(crate) fn new(alloc: Global) -> Files
        ensures { (name : List ℕ) → file_of result name ≡ None }
    {
        Files {
            alloc,
            files: BTreeMap::new(alloc),
        }
    }

    /// The bytes of a file.
    pub(crate) fn get(&self, name: &str) -> Option<&[u8]>
        ensures { MatchOption result (file_of self.now name.now ≡ None) (λ bytes. file_of self.now name.now ≡ Some bytes.now) }
    {
        match self.files.get(name) {
            Some(bytes) => Some(bytes.as_slice()),
            None => None,
        }
    }

    /// A copy of the bytes of a file, and `None` where there is no such file.
    pub(crate) fn copy_of(&self, name: &str) -> Result<Option<Bytes>, OutOfMemory>
        ensures { IfOk result (λ copy. option_map (λ bytes. bytes.items) copy ≡ file_of self.now name.now) }
    {
        let Some(bytes) = self.get(name) else {
            return Ok(None);
        };
        let mut copy = Bytes::new(self.alloc);
        copy.append(bytes)?;
        Ok(Some(copy))
    }

    /// Sets the bytes of a file, which need not be there. A refusal is want of memory.
    #[tactic(auto, using(std::proofs::lemmas::Map::Text::text_keys))]
    pub(crate) fn put(&mut self, name: &str, bytes: Bytes) -> Result<(), OutOfMemory>
        ensures put { OnOk result (file_of self.new name.now ≡ Some bytes.items) }
        ensures others { OthersStay (file_of self.old) (file_of self.new) name.now }
        ensures refused { OnErr result (AllStay (file_of self.old) (file_of self.new)) }
    {
        let key = String::from_str(self.alloc, name)?;
        self.files.insert(key, bytes)?;
        Ok(())
    }

    /// Sets the bytes of a file that is there, which takes no memory.
    #[tactic(auto, using(std::proofs::lemmas::Map::Text::text_keys))]
    pub(crate) fn replace(&mut self, name: &str, bytes: Bytes)
        requires { IsSome (file_of self.old name.now) }
        ensures put { file_of self.new name.now ≡ Some bytes.items }
        ensures others { OthersStay (file_of self.old) (file_of self.new) name.now }
    {
        if let Some(kept) = self.files.get_mut(name) {
            *kept = bytes;
        }
    }
}
