ghost use Rattle.std.specs.Prelude.{◌≡◌, Some, [], IsErrOf};

use crate::fault::EndFault;
use crate::sink::Sink;
use std::alloc::Global;
use view_base::Bytes;

/// A sink that keeps what it gets in memory, and fails only for want of that.
#[derive(Drop)]
pub struct StillSink {
    bytes: Bytes,
}

impl StillSink {
    /// A sink that got nothing yet.
    pub fn new(alloc: Global) -> StillSink
        ensures { ⟦<StillSink as Sink>⟧.got result ≡ Some [] }
    {
        StillSink {
            bytes: Bytes::new(alloc),
        }
    }

    /// The bytes that it got.
    pub fn got(&self) -> &[u8]
        ensures { ⟦<StillSink as Sink>⟧.got self.now ≡ Some result.now }
    {
        self.bytes.as_slice()
    }

    /// The bytes that it got, which takes no memory.
    pub fn into_bytes(self) -> Bytes
        ensures { ⟦<StillSink as Sink>⟧.got self ≡ Some result.items }
    {
        self.bytes
    }
}

impl Sink for StillSink {
    ghost use Rattle.view_ends.specs.Memory.{still_sink};
    ghost use Rattle.view_ends.specs.Pieces.{Gives};

    ghost got = { λ s. (still_sink s).got };

    ghost faults = { λ s. (still_sink s).faults };

    fn give(&mut self, piece: &[u8]) -> Result<usize, EndFault>
        ensures gives { Gives (still_sink self.old) (still_sink self.new) piece.now result }
        ensures never { ¬ IsErrOf result EndFault.Failed }
    {
        self.bytes.append(piece)?;
        Ok(piece.len())
    }
}
