ghost use Rattle.std.specs.Prelude.{◌≡◌, ℕ, ◌<◌, ◌≤◌, ◌==◌, ◌||◌, ◌&&◌, nat_le, true, false};
ghost use Rattle.view_meaning.specs.Classes.{has, all_classes};
ghost use Rattle.class_bits.specs.ClassSet.{no_classes};
ghost use Rattle.class_bits.specs.Kept.{IsClassSet};

use std::marker::Model;

/// A set of classes, the numbers 0 to 255, in 256 bits. Contracts see it as its four words of 64
/// bits and ask `has` which classes it has.
#[derive(Clone, Copy, Debug, PartialEq, Eq)]
pub struct ClassSet {
    words: [u64; 4],
}

impl Model for ClassSet {
    ghost use Rattle.std.specs.Prelude.{ℕ, List};

    ghost Value = { List ℕ };

    ghost view = { λ s. s.words };

    ghost use Rattle.class_bits.specs.Kept.{IsClassSet};

    ghost invariant = { λ s. IsClassSet s.words };

    ghost inverse = { λ words. record { words = words } };
}

impl ClassSet {
    /// The set of no class.
    pub fn empty() -> ClassSet
        ensures value { result ≡ no_classes }
        ensures words { IsClassSet result }
        ensures none { (c : ℕ) → has result c ≡ false }
    {
        ClassSet { words: [0; 4] }
    }

    /// The set of all classes.
    pub fn all() -> ClassSet
        ensures value { result ≡ all_classes }
        ensures words { IsClassSet result }
        ensures each { (c : ℕ) → c < 256 → has result c ≡ true }
    {
        ClassSet {
            words: [u64::MAX; 4],
        }
    }

    /// Puts a class into the set.
    pub fn add(&mut self, class: u8)
        ensures words { IsClassSet self.new }
        ensures added { (c : ℕ) → c < 256 → has self.new c ≡ (has self.old c || c == class) }
    {
        self.words[(class / 64) as usize] |= 1 << (class % 64);
    }

    /// Puts the classes from `first` to `last` into the set, both included.
    pub fn add_range(&mut self, first: u8, last: u8)
        requires { first ≤ last }
        ensures words { IsClassSet self.new }
        ensures added { (c : ℕ) → c < 256
            → has self.new c ≡ (has self.old c || nat_le first c && nat_le c last) }
    {
        for class in u16::from(first)..u16::from(last) + 1 {
            self.add(class as u8);
        }
    }

    /// Whether the set has a class.
    pub fn has(&self, class: u8) -> bool
        ensures { result ≡ has self.now class }
    {
        self.words[(class / 64) as usize] >> (class % 64) & 1 == 1
    }
}
