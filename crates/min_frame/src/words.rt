ghost use Rattle.std.specs.Prelude.{◌≡◌, ◌<◌, ◌^◌, length, slice_index};

use atomic_table::Closed;
use std::alloc::Global;
use std::marker::Model;

/// The words of a closed frame's pixels, where the frame kept them. Contracts see them as a list.
/// Threads may read them side by side.
pub struct FrameWords {
    pub(crate) closed: Closed<(), Global>,
    pub(crate) pixels: u32,
}

impl Model for FrameWords {
    ghost use Rattle.std.specs.Prelude.{◌≡◌, ℕ, ◌≤◌, List, take};
    ghost use Rattle.std.specs.Slots.{slots_items, slots_len, IsFull};

    ghost Value = { List ℕ };

    ghost view = { λ w. take w.pixels (slots_items w.closed.words) };

    ghost invariant = { λ w. (w.pixels ≤ slots_len w.closed.words) × IsFull w.closed.words × (slots_len w.closed.slots ≡ 0) };
}

// The table is closed: no seat is left, and no method writes a word. So its words change no more
// until they are dropped, and what a `&` lends is plain numbers.
unsafe impl Sync for FrameWords {}

impl FrameWords {
    /// How many pixels there are.
    #[inline]
    pub fn len(&self) -> usize
        ensures value { result ≡ length self.now }
        ensures few { length self.now < 2 ^ 32 }
    {
        self.pixels as usize
    }

    /// The word of a pixel.
    #[inline]
    pub fn word(&self, i: usize) -> u64
        requires { i < length self.now }
        ensures { result ≡ slice_index self.now i }
    {
        self.closed.word(i)
    }
}

impl Drop for FrameWords {
    fn drop(self) {
        let FrameWords { closed, pixels: _ } = self;
        closed.free();
    }
}
