ghost use Rattle.std.specs.Prelude.{◌≡◌, ℕ, ◌+◌, ◌-◌, ◌<◌, ◌≤◌, true, false, [], ◌∷◌, ◌++◌, length, slice_index, All, Contains, EachIndex, IfOk, IfSome, IfNone};
ghost use Rattle.min_frame.specs.Least.{least};
ghost use Rattle.min_frame.specs.Empty.{AreEmpty};
ghost use Rattle.min_frame.specs.Claimed.{times};
ghost use Rattle.min_frame.specs.Meaning.{with_account};

use crate::empty_words::EmptyWords;
use crate::rule::{Claim, Cut, Given, Merge, Plot, Rule};
use crate::seat::Seat;
use crate::view::{Size, View};
use crate::words::FrameWords;
use atomic_table::Table;
use std::alloc::Global;
use std::marker::{Brand, Model};
use view_base::OutOfMemory;

/// The pixels of the largest picture.
pub const MOST_PIXELS: u32 = 9_437_184;

/// The records of the largest survey, which is the most blocks that it can have.
pub const MOST_BLOCKS: u32 = 53_687_091;

/// The most workers that draw one picture.
pub const MOST_ENDS: u32 = 64;

/// A framebuffer that threads share by `&`: a 64-bit word for each pixel, which plots lower, and
/// numbers of pieces of work, which are claimed. No call waits for another thread.
#[derive(Drop)]
pub struct Frame {
    table: Table<(), View, Size, Rule, Global>,
    pixels: u32,
    blocks: u32,
}

impl Model for Frame {
    ghost use Rattle.std.specs.Prelude.{◌≡◌, ◌+◌};
    ghost use Rattle.min_frame.specs.Meaning.{Framed};

    ghost Value = { Framed };

    ghost view = { λ f. record { name = f.table.shared.table_id; pixels = f.pixels; blocks = f.blocks; ends = f.table.shared.key.ends } };

    ghost invariant = { λ f. (f.table.shared.table_id.words ≡ f.pixels + 1)
        × (f.table.shared.table_id.slots ≡ 0)
        × (f.table.shared.key.pixels ≡ f.pixels)
        × (f.table.shared.key.blocks ≡ f.blocks) };
}

impl Frame {
    /// A frame of `pixels` empty words, on which the numbers below `blocks` can be claimed and
    /// `ends` claims may find nothing left, with its root seat. Its words are copied from `empty`
    /// where that has as many. Takes the memory of all later calls; the refusal is want of it.
    pub fn new(
        alloc: Global,
        empty: &EmptyWords,
        pixels: u32,
        blocks: u32,
        ends: u32,
    ) -> Result<(Frame, Seat), OutOfMemory>
        requires pixels { (1 ≤ pixels) × (pixels ≤ MOST_PIXELS) }
        requires blocks { blocks ≤ MOST_BLOCKS }
        requires ends { (1 ≤ ends) × (ends ≤ MOST_ENDS) }
        ensures frame { IfOk result (λ r. (r.0.pixels ≡ pixels) × (r.0.blocks ≡ blocks) × (r.0.ends ≡ ends)) }
        ensures seat { IfOk result (λ r. r.1 ≡ record { frame = r.0.name; plots = []; claims = []; ends = ends; root = true; out = 0 }) }
    {
        let size = Size {
            pixels,
            blocks,
            ends,
        };
        match empty.of(pixels) {
            Some(words) => Frame::of(alloc, words, &size),
            None => Frame::of(alloc, EmptyWords::new(alloc, pixels)?.all(), &size),
        }
    }

    /// A frame of this size, whose words are copied from these, with its root seat.
    fn of(alloc: Global, words: &[u64], size: &Size) -> Result<(Frame, Seat), OutOfMemory>
        requires words { (length words.now ≡ size.now.pixels + 1) × AreEmpty words.now }
        requires pixels { 1 ≤ size.now.pixels }
        requires blocks { size.now.blocks ≤ MOST_BLOCKS }
        requires ends { (1 ≤ size.now.ends) × (size.now.ends ≤ MOST_ENDS) }
        ensures frame { IfOk result (λ r. (r.0.pixels ≡ size.now.pixels) × (r.0.blocks ≡ size.now.blocks) × (r.0.ends ≡ size.now.ends)) }
        ensures seat { IfOk result (λ r. r.1 ≡ record { frame = r.0.name; plots = []; claims = []; ends = size.now.ends; root = true; out = 0 }) }
    {
        let (table, inner) = Table::of_words(alloc, words, size)?;
        let frame = Frame {
            table,
            pixels: size.pixels,
            blocks: size.blocks,
        };
        Ok((frame, Seat { inner }))
    }

    /// A new seat, with `ends` of the root's ends, for another thread. Takes no memory.
    pub fn split(&self, root: &mut Seat, ends: u32) -> Seat
        requires frame { root.old.frame ≡ self.now.name }
        requires root { root.old.root ≡ true }
        requires ends { (1 ≤ ends) × (ends < root.old.ends) }
        ensures root { root.new ≡ record root.old { ends = root.old.ends - ends; out = root.old.out + 1 } }
        ensures worker { result ≡ record { frame = self.now.name; plots = []; claims = []; ends = ends; root = false; out = 0 } }
    {
        split_by::<Brand>(self, root, ends)
    }

    /// Lowers the word of `pixel` to `value` where it is above, in one atomic minimum. `close`
    /// tells what all plots leave.
    pub fn plot(&self, seat: &mut Seat, pixel: u32, value: u64)
        requires frame { seat.old.frame ≡ self.now.name }
        requires pixel { pixel < self.now.pixels }
        ensures { seat.new ≡ record seat.old { plots = seat.old.plots ++ (pixel, value) ∷ [] } }
    {
        self.table
            .shared
            .fetch_min::<Plot>(&mut seat.inner, pixel as usize, value);
    }

    /// Reads the word of `pixel` and tells nothing of it: a plot that comes soon finds it at hand.
    #[inline]
    pub fn bring(&self, pixel: u32)
        requires { pixel < self.now.pixels }
    {
        let _word = self.table.shared.peek(pixel as usize);
    }

    /// Claims a number below `blocks` that is above all that this seat claimed, or answers `None`
    /// and uses up one of the seat's ends, in one atomic sum. `close` tells what the claims of all
    /// seats have in common: none is made twice, and a `None` comes only once none is left.
    pub fn claim(&self, seat: &mut Seat) -> Option<u32>
        requires frame { seat.old.frame ≡ self.now.name }
        requires ends { 1 ≤ seat.old.ends }
        ensures claimed { IfSome result (λ n. seat.new ≡ record seat.old { claims = seat.old.claims ++ n ∷ [] }) }
        ensures below { IfSome result (λ n. n < self.now.blocks) }
        ensures above { IfSome result (λ n. All (λ k. k < n) seat.old.claims) }
        ensures none { IfNone result (seat.new ≡ record seat.old { ends = seat.old.ends - 1 }) }
    {
        claim_of::<Brand>(self, seat)
    }

    /// Carries the account of a worker over to the root, and uses the worker up. Takes no memory.
    pub fn join(&self, root: &mut Seat, worker: Seat)
        requires frame { (root.old.frame ≡ self.now.name) × (worker.frame ≡ self.now.name) }
        requires root { root.old.root ≡ true }
        requires worker { worker.root ≡ false }
        ensures { root.new ≡ with_account root.old worker }
    {
        self.table
            .shared
            .join_seat::<Merge>(&mut root.inner, worker.inner);
    }

    /// The words of the pixels, once every seat is joined: each is the least value plotted on its
    /// pixel, or 2^64 - 1 where there is none. Takes no memory.
    pub fn close(self, root: Seat) -> FrameWords
        requires frame { root.frame ≡ self.name }
        requires root { root.root ≡ true }
        requires out { root.out ≡ 0 }
        ensures pixels { length result ≡ self.pixels }
        ensures least { EachIndex result (λ x. slice_index result x ≡ least root.plots x) }
        ensures once { (n : ℕ) → times n root.claims ≤ 1 }
        ensures below { All (λ n. n < self.blocks) root.claims }
        ensures all { root.ends < self.ends → (n : ℕ) → n < self.blocks → Contains root.claims n }
    {
        let Frame { table, pixels, .. } = self;
        FrameWords {
            closed: table.close_with(root.inner),
            pixels,
        }
    }
}

/// `split`, where the step is told how many ends it gives away.
fn split_by<E: Given>(frame: &Frame, root: &mut Seat, ends: u32) -> Seat
    requires picked { E.number ≡ ends }
    requires frame { root.old.frame ≡ frame.now.name }
    requires root { root.old.root ≡ true }
    requires ends { (1 ≤ ends) × (ends < root.old.ends) }
    ensures root { root.new ≡ record root.old { ends = root.old.ends - ends; out = root.old.out + 1 } }
    ensures worker { result ≡ record { frame = frame.now.name; plots = []; claims = []; ends = ends; root = false; out = 0 } }
{
    Seat {
        inner: frame.table.shared.split_seat::<Cut<E>>(&mut root.inner),
    }
}

/// `claim`, where the step is told how many numbers there are.
fn claim_of<B: Given>(frame: &Frame, seat: &mut Seat) -> Option<u32>
    requires picked { B.number ≡ frame.now.blocks }
    requires frame { seat.old.frame ≡ frame.now.name }
    requires ends { 1 ≤ seat.old.ends }
    ensures claimed { IfSome result (λ n. seat.new ≡ record seat.old { claims = seat.old.claims ++ n ∷ [] }) }
    ensures below { IfSome result (λ n. n < frame.now.blocks) }
    ensures above { IfSome result (λ n. All (λ k. k < n) seat.old.claims) }
    ensures none { IfNone result (seat.new ≡ record seat.old { ends = seat.old.ends - 1 }) }
{
    let word = frame.pixels as usize;
    let found = frame
        .table
        .shared
        .fetch_add::<Claim<B>>(&mut seat.inner, word, 1);
    if found < u64::from(frame.blocks) {
        Some(found as u32)
    } else {
        None
    }
}
