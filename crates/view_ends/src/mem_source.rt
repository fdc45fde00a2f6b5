ghost use Rattle.std.specs.Prelude.{◌≡◌, Some, IsErr, IfOk};
ghost use Rattle.view_ends.specs.Memory.{mem_source};
ghost use Rattle.view_ends.specs.Pieces.{Takes};
ghost use Rattle.view_ends.specs.Plans.{planned_takes, FailsAt, StopsBefore};

use crate::failing::{Failing, Places};
use crate::fault::Failed;
use crate::source::Source;
use crate::still_source::StillSource;
use view_base::Bytes;

/// Bytes in memory that fail where a test says.
#[derive(Drop)]
pub struct MemSource {
    still: StillSource,
    failing: Failing,
    faults: u64,
}

impl MemSource {
    /// A source of these bytes. For each place in `fail_at`, one take made when just that many
    /// bytes were taken fails, the first of them, and no take gives bytes past the next place.
    pub fn new(bytes: Bytes, fail_at: Places) -> MemSource
        ensures left { (mem_source result).left ≡ Some bytes.items }
        ensures taken { (mem_source result).taken ≡ 0 }
        ensures faults { (mem_source result).faults ≡ 0 }
        ensures planned { planned_takes result ≡ fail_at.items }
    {
        MemSource {
            still: StillSource::new(bytes),
            failing: Failing::new(fail_at),
            faults: 0,
        }
    }

    /// How many bytes were taken.
    pub fn taken(&self) -> u64
        ensures { result ≡ (mem_source self.now).taken }
    {
        self.still.taken()
    }

    /// How many takes failed.
    pub fn faults(&self) -> u64
        ensures { result ≡ (mem_source self.now).faults }
    {
        self.faults
    }
}

impl Source for MemSource {
    ghost left = { λ s. (mem_source s).left };

    ghost taken = { λ s. (mem_source s).taken };

    ghost faults = { λ s. (mem_source s).faults };

    fn take(&mut self, buf: &mut [u8]) -> Result<usize, Failed>
        ensures takes { Takes (mem_source self.old) (mem_source self.new) buf.old buf.new result }
        ensures planned { FailsAt (IsErr result) (planned_takes self.old) (planned_takes self.new) (mem_source self.old).taken }
        ensures stops { IfOk result (λ n. StopsBefore (planned_takes self.old) (mem_source self.old).taken n) }
    {
        let at = self.still.taken();
        if self.failing.strike(at) {
            self.faults = self.faults.saturating_add(1);
            return Err(Failed);
        }
        let most = self.failing.room(at, buf.len());
        let n = self.still.take(&mut buf[..most])?;
        Ok(n)
    }

    fn expected(&self) -> u64 {
        self.still.expected()
    }
}
