ghost use Rattle.std.specs.Prelude.{◌≡◌, ℕ, ◌≤◌, ◌<◌, List, Option, length, take, IfOk, OnOk, OnErr, IsErrOf};
ghost use Rattle.view_ends.specs.Ends.{Rose, Gains};

use crate::fault::EndFault;

/// Bytes that go outside, in whatever pieces it takes them.
pub trait Sink {
    /// The bytes given so far, where the sink tells them.
    ghost got: { Self → Option (List ℕ) };

    /// How often the sink failed.
    ghost faults: { Self → ℕ };

    /// Gives the front of `piece` and answers how many bytes went, at least one where `piece`
    /// isn't empty. After an `Err` nothing went. Want of memory is no fault of the sink.
    fn give(&mut self, piece: &[u8]) -> Result<usize, EndFault>
        ensures bytes { IfOk result (λ n. Gains (got self.old) (take n piece.now) (got self.new)) }
        ensures fits { IfOk result (λ n. n ≤ length piece.now) }
        ensures some { IfOk result (λ n. 0 < length piece.now → 0 < n) }
        ensures calm { OnOk result (faults self.new ≡ faults self.old) }

        ensures failed { IsErrOf result EndFault.Failed → Rose (faults self.old) (faults self.new) }
        ensures memory { IsErrOf result EndFault.Memory → faults self.new ≡ faults self.old }
        ensures kept { OnErr result (got self.new ≡ got self.old) }
        ensures later { faults self.old ≤ faults self.new };
}
