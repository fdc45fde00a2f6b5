ghost use Rattle.std.specs.Prelude.{◌≡◌};
ghost use Rattle.view_commands.specs.Run.{IsNothing};

use crate::status::Status;
use sessions::{Ends, History, Reason};
use std::alloc::Global;

/// What a command that serves sessions tells of them, and any other command leaves empty.
#[derive(Drop)]
pub struct Told {
    /// What happened to the versions of the survey's classes, in order.
    pub history: History,
    /// How each session ended, in the order of their numbers.
    pub sessions: Ends,
    /// How the writing of the journal ended; `Finished` where there is none.
    pub journal: Reason,
}

/// How a command ended, and what it tells of its sessions.
#[derive(Drop)]
pub struct Ended {
    /// How the command ended.
    pub status: Status,
    /// What it tells.
    pub told: Told,
}

impl Told {
    /// What a command without sessions tells. Takes no memory.
    pub fn nothing(alloc: Global) -> Told
        ensures { IsNothing result }
    {
        Told {
            history: History::new(alloc),
            sessions: Ends::new(alloc),
            journal: Reason::Finished,
        }
    }
}

impl Ended {
    /// The end of a command that tells nothing beside its status. Takes no memory.
    pub(crate) fn only(alloc: Global, status: Status) -> Ended
        ensures status { result.status ≡ status }
        ensures told { IsNothing result.told }
    {
        Ended {
            status,
            told: Told::nothing(alloc),
        }
    }
}
