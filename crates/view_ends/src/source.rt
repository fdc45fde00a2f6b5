ghost use Rattle.std.specs.Prelude.{◌≡◌, ℕ, ◌+◌, ◌≤◌, ◌<◌, List, Option, length, take, IfOk, OnOk, OnErr};
ghost use Rattle.view_ends.specs.Ends.{Rose, Leaves, IsSpent};

use crate::fault::Failed;

/// Bytes that come from outside, in whatever pieces it gives them.
pub trait Source {
    /// The bytes not yet taken, where the source tells them.
    ghost left: { Self → Option (List ℕ) };

    /// How many bytes were taken since the source was made.
    ghost taken: { Self → ℕ };

    /// How often the source failed.
    ghost faults: { Self → ℕ };

    /// Fills the front of `buf` and answers how many bytes it took. `Ok(0)` for a `buf` that isn't
    /// empty is the end of input; what lies behind the bytes taken is left open. After `Failed`
    /// nothing was taken.
    fn take(&mut self, buf: &mut [u8]) -> Result<usize, Failed>
        ensures bytes { IfOk result (λ n. Leaves (left self.old) (take n buf.new) (left self.new)) }
        ensures fits { IfOk result (λ n. n ≤ length buf.old) }
        ensures count { IfOk result (λ n. taken self.new ≡ taken self.old + n) }
        ensures end { IfOk result (λ n. n ≡ 0 → 0 < length buf.old → IsSpent (left self.new)) }
        ensures calm { OnOk result (faults self.new ≡ faults self.old) }

        ensures failed { OnErr result (Rose (faults self.old) (faults self.new)) }
        ensures kept { OnErr result (left self.new ≡ left self.old) }
        ensures uncounted { OnErr result (taken self.new ≡ taken self.old) }
        ensures later { faults self.old ≤ faults self.new };

    /// About how many bytes are still to come, where the source knows; nothing rests on it.
    fn expected(&self) -> u64 {
        0
    }
}
