ghost use Rattle.std.specs.Prelude.{◌≡◌, ◌+◌, ◌<◌, ◌≤◌, ◌^◌, ◌++◌, ◌∷◌, [], length, vec_len, vec_capacity};

use edit_ops::Edit;
use view_base::{Listing, Version};

/// What happened to the versions of a survey's classes.
#[derive(Clone, Copy, Debug, PartialEq, Eq)]
pub enum What {
    /// An edit was published, which made the next version.
    Publish(Edit),
    /// The version that was current then was pinned.
    Pin,
    /// A pin of this version was given back.
    Unpin(Version),
}

/// One entry of a history: who made it, and what it is. Sessions are numbered from 1.
#[derive(Clone, Copy, Debug, PartialEq, Eq)]
pub struct Entry {
    /// The number of the session.
    pub who: u32,
    /// What happened.
    pub what: What,
}

/// What happened to the versions, in order. Version v has the first v published edits.
pub type History = Listing<Entry>;

/// Appends an entry, for which there is room.
pub(crate) fn append(history: &mut Vec<Entry>, who: u32, what: What)
    requires room { vec_len history.old < vec_capacity history.old }
    ensures items { history.new.items ≡ history.old.items ++ (record { who = who; what = what }) ∷ [] }
    ensures few { length history.new.items < 2 ^ 64 }
    ensures len { vec_len history.new ≡ vec_len history.old + 1 }
    ensures capacity { vec_capacity history.old ≤ vec_capacity history.new }
{
    history.push(Entry { who, what }).unwrap();
}
