ghost use Rattle.std.specs.Prelude.{◌≡◌, Some, [], length, IsErrOf, IfOk, IfSome};
ghost use Rattle.view_ends.specs.Memory.{mem_sink};
ghost use Rattle.view_ends.specs.Pieces.{Gives};
ghost use Rattle.view_ends.specs.Plans.{planned_gives, FailsAt, StopsBefore};

use crate::failing::{Failing, Places};
use crate::fault::EndFault;
use crate::sink::Sink;
use crate::still_sink::StillSink;
use std::alloc::Global;
use view_base::Bytes;

/// A sink in memory that fails where a test says.
#[derive(Drop)]
pub struct MemSink {
    still: StillSink,
    failing: Failing,
    faults: u64,
}

impl MemSink {
    /// A sink that got nothing yet. For each place in `fail_at`, one give made when just that many
    /// bytes were given fails, the first of them, and no give takes bytes past the next place.
    pub fn new(alloc: Global, fail_at: Places) -> MemSink
        ensures got { (mem_sink result).got ≡ Some [] }
        ensures faults { (mem_sink result).faults ≡ 0 }
        ensures planned { planned_gives result ≡ fail_at.items }
    {
        MemSink {
            still: StillSink::new(alloc),
            failing: Failing::new(fail_at),
            faults: 0,
        }
    }

    /// The bytes that it got.
    pub fn got(&self) -> &[u8]
        ensures { (mem_sink self.now).got ≡ Some result.now }
    {
        self.still.got()
    }

    /// The bytes that it got, which takes no memory.
    pub fn into_bytes(self) -> Bytes
        ensures { (mem_sink self).got ≡ Some result.items }
    {
        self.still.into_bytes()
    }

    /// How many gives failed.
    pub fn faults(&self) -> u64
        ensures { result ≡ (mem_sink self.now).faults }
    {
        self.faults
    }
}

impl Sink for MemSink {
    ghost got = { λ s. (mem_sink s).got };

    ghost faults = { λ s. (mem_sink s).faults };

    fn give(&mut self, piece: &[u8]) -> Result<usize, EndFault>
        ensures gives { Gives (mem_sink self.old) (mem_sink self.new) piece.now result }
        ensures planned { IfSome (mem_sink self.old).got (λ got. FailsAt (IsErrOf result EndFault.Failed)
            (planned_gives self.old) (planned_gives self.new) (length got)) }
        ensures stops { IfOk result (λ n. IfSome (mem_sink self.old).got (λ got. StopsBefore (planned_gives self.old) (length got) n)) }
    {
        let at = self.still.got().len() as u64;
        if self.failing.strike(at) {
            self.faults = self.faults.saturating_add(1);
            return Err(EndFault::Failed);
        }
        let most = self.failing.room(at, piece.len());
        self.still.give(&piece[..most])
    }
}
