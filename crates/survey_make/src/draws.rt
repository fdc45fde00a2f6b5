ghost use Rattle.std.specs.Prelude.{◌≡◌, ◌+◌, ◌*◌, ◌/◌, ◌%◌, ◌^◌};

/// The factor of a linear congruential generator modulo 2^64 (MMIX, Knuth).
pub(crate) const MULTIPLIER: u64 = 6364136223846793005;

/// What it adds.
pub(crate) const INCREMENT: u64 = 1442695040888963407;

/// A linear congruential generator modulo 2^64, with the constants of MMIX (Knuth).
#[derive(Clone, Copy)]
pub(crate) struct Draws {
    pub(crate) state: u64,
}

impl Draws {
    /// The next number of 32 bits, the upper half of the new state.
    pub(crate) fn draw(&mut self) -> u32
        ensures state { self.new.state ≡ (MULTIPLIER * self.old.state + INCREMENT) % 2 ^ 64 }
        ensures drawn { result ≡ (MULTIPLIER * self.old.state + INCREMENT) % 2 ^ 64 / 2 ^ 32 }
    {
        self.state = self.state.wrapping_mul(MULTIPLIER).wrapping_add(INCREMENT);
        (self.state >> 32) as u32
    }
}
