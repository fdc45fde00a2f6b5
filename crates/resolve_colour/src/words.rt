ghost use Rattle.std.specs.Prelude.{◌≡◌, ◌<◌, ◌^◌, ℕ, List, length, slice_index};

use min_frame::FrameWords;
use view_base::Words;

/// The words of pixels, read one at a time.
pub trait PixelWords {
    /// The words as a list.
    ghost words: { Self → List ℕ };

    /// How many pixels there are, which is no more than memory holds.
    fn len(&self) -> usize
        ensures value { result ≡ length (words self.now) }
        ensures few { length (words self.now) < 2 ^ 60 };

    /// The word of a pixel.
    fn word(&self, pixel: usize) -> u64
        requires { pixel < length (words self.now) }
        ensures { result ≡ slice_index (words self.now) pixel };
}

impl PixelWords for FrameWords {
    ghost words = { λ w. w };

    #[inline]
    fn len(&self) -> usize {
        self.len()
    }

    #[inline]
    fn word(&self, pixel: usize) -> u64 {
        self.word(pixel)
    }
}

impl PixelWords for Words {
    ghost words = { λ w. w.items };

    #[inline]
    fn len(&self) -> usize {
        self.as_slice().len()
    }

    #[inline]
    fn word(&self, pixel: usize) -> u64 {
        self.as_slice()[pixel]
    }
}
