ghost use Rattle.std.specs.Prelude.{◌≡◌, ◌<◌, ◌++◌, ◌∷◌, [], length};
ghost use Rattle.std.specs.Bool.{OnTrue, OnFalse};
ghost use Rattle.splat_workers.specs.Waiting.{drawn, plotting};

use min_frame::{Frame, Seat};
use std::marker::Model;

/// How many plots wait for one another.
const ROOM: usize = 64;

/// Plots that wait to be made one right after another, once their words were all read. A word that
/// isn't at hand takes some hundred times longer than a plot, and no later word is read while a plot
/// is made; read beforehand, they come side by side. Contracts see how many pixels the frame has,
/// and the plots as pixel and value.
#[derive(Drop)]
pub(crate) struct Batch {
    plots: [(u32, u64); ROOM],
    count: usize,
    pixels: u32,
}

impl Model for Batch {
    ghost use Rattle.std.specs.Prelude.{◌≡◌, ◌<◌, ◌≤◌, All, length, take};
    ghost use Rattle.splat_workers.specs.Waiting.{Waiting};

    ghost Value = { Waiting };

    ghost view = { λ b. record { pixels = b.pixels; plots = take b.count b.plots } };

    ghost invariant = { λ b. (length b.plots ≡ 64) × (b.count ≤ 64) × All (λ plot. plot.0 < b.pixels) (take b.count b.plots) };
}

impl Batch {
    /// No plots, for a frame of so many pixels.
    pub(crate) fn new(pixels: u32) -> Batch
        ensures { result ≡ record { pixels = pixels; plots = [] } }
    {
        Batch {
            plots: [(0, 0); ROOM],
            count: 0,
            pixels,
        }
    }

    /// Whether there is no room for one more plot.
    #[inline]
    fn is_full(&self) -> bool
        ensures { OnFalse result (length self.now.plots < ROOM) }
    {
        self.count == ROOM
    }

    /// Puts a plot behind the others.
    #[inline]
    fn push(&mut self, pixel: u32, value: u64)
        requires room { length self.old.plots < ROOM }
        requires pixel { pixel < self.old.pixels }
        ensures { self.new ≡ record self.old { plots = self.old.plots ++ (pixel, value) ∷ [] } }
    {
        self.plots[self.count] = (pixel, value);
        self.count += 1;
    }

    /// Reads the words of the plots that wait, one right after another.
    #[inline]
    fn bring(&self, frame: &Frame)
        requires pixels { self.now.pixels ≡ frame.now.pixels }
    {
        for index in 0..self.count {
            frame.bring(self.plots[index].0);
        }
    }

    /// Makes the plots that wait, in their order.
    pub(crate) fn flush(&mut self, frame: &Frame, seat: &mut Seat)
        requires frame { seat.old.frame ≡ frame.now.name }
        requires pixels { self.old.pixels ≡ frame.now.pixels }
        ensures seat { seat.new ≡ drawn seat.old self.old }
        ensures empty { self.new ≡ record self.old { plots = [] } }
    {
        self.bring(frame);
        for place in 0..self.count {
            let (pixel, value) = self.plots[place];
            frame.plot(seat, pixel, value);
        }
        self.count = 0;
    }

    /// Puts a plot behind the others, which are made first where there is no room for it.
    #[inline]
    pub(crate) fn plot(&mut self, frame: &Frame, seat: &mut Seat, pixel: u32, value: u64)
        requires frame { seat.old.frame ≡ frame.now.name }
        requires pixels { self.old.pixels ≡ frame.now.pixels }
        requires pixel { pixel < frame.now.pixels }
        ensures drawn { drawn seat.new self.new ≡ plotting (drawn seat.old self.old) ((pixel, value) ∷ []) }
        ensures frame { seat.new.frame ≡ seat.old.frame }
        ensures pixels { self.new.pixels ≡ self.old.pixels }
    {
        if self.is_full() {
            self.flush(frame, seat);
        }
        self.push(pixel, value);
    }
}
