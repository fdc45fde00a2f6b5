ghost use Rattle.std.specs.Prelude.{◌≡◌, ◌+◌, ◌≤◌, ◌<◌, ◌↔◌, ◌∷◌, Contains, IsTrue, MatchBool, MatchOption, IsPermutation, Some, slice_get};
ghost use Rattle.view_ends.specs.Plans.{StopsBefore};

use view_base::Listing;

/// Places in bytes, each counted from the first byte.
pub type Places = Listing<u64>;

/// The places at which a call has yet to fail.
#[derive(Drop)]
pub(crate) struct Failing {
    places: Vec<u64>,
}

impl Failing {
    pub(crate) fn new(places: Places) -> Failing
        ensures { result.places.items ≡ places.items }
    {
        Failing {
            places: places.into_vec(),
        }
    }

    /// The index of the first entry of this place.
    fn index_of(&self, at: u64) -> Option<usize>
        ensures { MatchOption result (¬ Contains self.now.places.items at) (λ i. slice_get self.now.places.items i ≡ Some at) }
    {
        self.places.iter().position(|place| *place == at)
    }

    /// Whether the call at this place fails. Each place that was given fails one call.
    pub(crate) fn strike(&mut self, at: u64) -> bool
        ensures { MatchBool result
            (IsPermutation self.old.places.items (at ∷ self.new.places.items))
            ((self.new.places.items ≡ self.old.places.items) × ¬ Contains self.old.places.items at) }
    {
        match self.index_of(at) {
            Some(i) => {
                let _ = self.places.remove(i);
                true
            }
            None => false,
        }
    }

    /// How many of `most` bytes from `at` on lie before the next place.
    pub(crate) fn room(&self, at: u64, most: usize) -> usize
        ensures within { result ≤ most }
        ensures before { StopsBefore self.now.places.items at result }
        ensures some { 0 < most → 0 < result }
        ensures full { result < most → Contains self.now.places.items (at + result) }
    {
        let mut room = most;
        for place in &self.places {
            room = cut_before(at, room, *place);
        }
        room
    }
}

/// How many of `room` bytes from `at` on lie before this place, where it lies behind `at`.
fn cut_before(at: u64, room: usize, place: u64) -> usize
    ensures within { result ≤ room }
    ensures before { at < place → at + result ≤ place }
    ensures some { 0 < room → 0 < result }
    ensures cut { result < room → at + result ≡ place }
{
    if at < place {
        room.min((place - at) as usize)
    } else {
        room
    }
}
