ghost use Rattle.std.specs.Prelude.{◌≡◌, ◌+◌, ◌≤◌, [], length, IfNone, IfOk, IfSome};
ghost use Rattle.min_frame.specs.Empty.{AreEmpty};

use crate::frame::MOST_PIXELS;
use std::alloc::Global;
use std::marker::Model;
use view_base::OutOfMemory;

/// The word of a pixel on which nothing was plotted.
const EMPTY: u64 = u64::MAX;

/// The words of a frame on which nothing was plotted, from which frames of as many pixels or fewer
/// are copied. Contracts see them as a list, the claim word behind those of the pixels. Threads may
/// share them.
#[derive(Drop)]
pub struct EmptyWords {
    words: Vec<u64>,
}

impl Model for EmptyWords {
    ghost use Rattle.std.specs.Prelude.{ℕ, List};
    ghost use Rattle.min_frame.specs.Empty.{AreEmpty};

    ghost Value = { List ℕ };

    ghost view = { λ w. w.words.items };

    ghost invariant = { λ w. AreEmpty w.words.items };
}

impl EmptyWords {
    /// No words: each frame makes its own.
    pub fn none(alloc: Global) -> EmptyWords
        ensures { result ≡ [] }
    {
        EmptyWords {
            words: Vec::new(alloc),
        }
    }

    /// Words for frames of up to so many pixels. The refusal is want of memory.
    pub fn new(alloc: Global, pixels: u32) -> Result<EmptyWords, OutOfMemory>
        requires { pixels ≤ MOST_PIXELS }
        ensures { IfOk result (λ words. length words ≡ pixels + 1) }
    {
        let mut words = vec![in alloc; EMPTY; pixels as usize + 1]?;
        words[pixels as usize] = 0;
        Ok(EmptyWords { words })
    }

    /// All of them.
    pub(crate) fn all(&self) -> &[u64]
        ensures same { result.now ≡ self.now }
        ensures empty { AreEmpty result.now }
    {
        &self.words
    }

    /// The words of a frame of so many pixels, if these are enough.
    pub(crate) fn of(&self, pixels: u32) -> Option<&[u64]>
        ensures size { IfSome result (λ words. length words.now ≡ pixels + 1) }
        ensures empty { IfSome result (λ words. AreEmpty words.now) }
        ensures none { IfNone result (length self.now ≤ pixels) }
    {
        let size = pixels as usize + 1;
        if size <= self.words.len() {
            Some(&self.words[self.words.len() - size..])
        } else {
            None
        }
    }
}
