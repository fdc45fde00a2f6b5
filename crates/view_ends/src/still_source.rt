ghost use Rattle.std.specs.Prelude.{◌≡◌, ◌+◌, ◌^◌, ◌<◌, ◌≤◌, Some, drop, length, IsOk};

use crate::fault::Failed;
use crate::source::Source;
use view_base::Bytes;

/// Bytes in memory, which never fail.
#[derive(Drop)]
pub struct StillSource {
    bytes: Bytes,
    at: usize,
    ghost within: { at ≤ length bytes.items },
}

impl StillSource {
    /// A source of these bytes.
    pub fn new(bytes: Bytes) -> StillSource
        ensures left { ⟦<StillSource as Source>⟧.left result ≡ Some bytes.items }
        ensures taken { ⟦<StillSource as Source>⟧.taken result ≡ 0 }
    {
        StillSource { bytes, at: 0 }
    }

    /// How many bytes were taken.
    pub fn taken(&self) -> u64
        ensures { result ≡ ⟦<StillSource as Source>⟧.taken self.now }
    {
        self.at as u64
    }

    fn rest(&self) -> &[u8]
        ensures rest { result.now ≡ drop self.now.at self.now.bytes.items }
        ensures fits { self.now.at + length result.now < 2 ^ 64 }
    {
        let (_, rest) = self.bytes.as_slice().split_at(self.at);
        rest
    }
}

impl Source for StillSource {
    ghost use Rattle.view_ends.specs.Memory.{still_source};
    ghost use Rattle.view_ends.specs.Pieces.{Takes};

    ghost left = { λ s. (still_source s).left };

    ghost taken = { λ s. (still_source s).taken };

    ghost faults = { λ s. (still_source s).faults };

    fn take(&mut self, buf: &mut [u8]) -> Result<usize, Failed>
        ensures takes { Takes (still_source self.old) (still_source self.new) buf.old buf.new result }
        ensures never { IsOk result }
    {
        let rest = self.rest();
        let n = buf.len().min(rest.len());
        buf[..n].copy_from_slice(&rest[..n]);
        self.at += n;
        Ok(n)
    }

    fn expected(&self) -> u64 {
        self.rest().len() as u64
    }
}
