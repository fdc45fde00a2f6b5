use view_base::{Listing, Version};

/// Why a session ended.
#[derive(Clone, Copy, Debug, PartialEq, Eq)]
pub enum Reason {
    /// Its input was read to the end, and its output got every reply.
    Finished,
    /// Its input failed.
    ReadFault,
    /// Its input has more than 2^20 bytes.
    SessionLimit,
    /// Its output failed.
    WriteFault,
    /// Want of memory.
    Memory,
}

/// The version that each command of a session was answered under.
pub type Marks = Listing<Version>;

/// How a session ended.
#[derive(Drop)]
pub struct SessionEnd {
    /// One mark for each command that was processed: the version that an edit made, or that a view,
    /// a count or a save is answered by; for a refused line the mark before it, and 0 where there
    /// is none.
    pub marks: Marks,
    /// Why it ended.
    pub reason: Reason,
    /// How many bytes of its input were taken.
    pub taken: u64,
}

/// The ends of sessions, in the order of their numbers.
pub type Ends = Listing<SessionEnd>;
