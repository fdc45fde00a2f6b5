use thiserror::Error;
use view_base::OutOfMemory;

/// What is outside failed. The count of faults of the end that answers this rose in that call.
#[derive(Clone, Copy, Debug, PartialEq, Eq, Error)]
#[error("the other end failed")]
pub struct Failed;

/// Why a call to the outside gave up.
#[derive(Clone, Copy, Debug, PartialEq, Eq, Error)]
pub enum EndFault {
    /// What is outside failed, and its count of faults rose in that call.
    #[error("the other end failed")]
    Failed,
    /// Want of memory.
    #[error("out of memory")]
    Memory,
}

impl From<OutOfMemory> for EndFault {
    ghost use Rattle.std.specs.Prelude.{◌≡◌};
    ghost use Rattle.view_ends.specs.declared.fault.EndFault.TheVariants.{Memory};

    ghost from_gives = { λ _ fault. fault ≡ Memory };

    fn from(_: OutOfMemory) -> Self {
        EndFault::Memory
    }
}
