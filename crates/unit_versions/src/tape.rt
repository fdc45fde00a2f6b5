ghost use Rattle.std.specs.Prelude.{◌≡◌, ◌<◌, ◌^◌, [], ◌∷◌, ◌++◌, length};

use std::alloc::Global;
use std::marker::Model;
use std::process::Abort;
use turn_gate::Replayed;

/// A list of pairs of a maker and a number.
#[derive(Drop)]
pub(crate) struct Tape {
    items: Vec<(u32, u32)>,
}

impl Model for Tape {
    ghost use Rattle.std.specs.Prelude.{ℕ, List};

    ghost Value = { List (ℕ × ℕ) };

    ghost view = { λ t. t.items.items };
}

impl Replayed for Tape {
    type Entry = (u32, u32);

    ghost Base = { Unit {0} };

    ghost base = { λ t. tt };

    ghost entries = { λ t. t };

    ghost replays = { λ base entries. Unit {0} };

    ghost maker = { λ e. e.0 };

    fn tell(&self) {}
}

impl Tape {
    pub(crate) fn new(alloc: Global) -> Tape
        ensures { result ≡ [] }
    {
        Tape {
            items: Vec::new(alloc),
        }
    }

    pub(crate) fn push<R: Abort>(&mut self, rt: &R, who: u32, number: u32)
        ensures tape { self.new ≡ self.old ++ (who, number) ∷ [] }
        ensures length { length self.new < 2 ^ 64 }
    {
        self.items.push((who, number)).expect(rt, "memory");
    }

    pub(crate) fn as_slice(&self) -> &[(u32, u32)] {
        self.items.as_slice()
    }

    /// Whether the entries of that maker are the numbers from 0 on, one for each of its turns.
    pub(crate) fn is_whole(&self, who: u32, turns: u32) -> bool {
        let mut next = 0;
        for &(maker, number) in self.items.as_slice() {
            if maker == who {
                if number != next {
                    return false;
                }
                next = number.saturating_add(1);
            }
        }
        next == turns
    }
}
