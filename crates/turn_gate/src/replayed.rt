ghost use Rattle.std.specs.Prelude.{ℕ, List};

/// A value that stores the list of its changes and can be rebuilt from it.
pub trait Replayed {
    /// One change, as the value stores it.
    type Entry;

    // What no change touches.
    ghost Base: { Type 0 };

    ghost base: { Self → Base };

    // The changes that the value stores, in order.
    ghost entries: { Self → List Self.Entry };

    // Whether these changes may follow one another from that base.
    ghost replays: { Base → List Self.Entry → Type 0 };

    // The number of the caller that made the change.
    ghost maker: { Self.Entry → ℕ };

    /// Tells a proof that the value's changes may follow one another. Changes nothing and takes no
    /// memory.
    fn tell(&self)
        ensures { replays (base self.now) (entries self.now) };
}
