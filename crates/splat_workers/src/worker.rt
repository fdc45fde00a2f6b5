ghost use Rattle.std.specs.Prelude.{◌≡◌};
ghost use Rattle.splat_workers.specs.Drawing.{IsFrameFor};
ghost use Rattle.splat_workers.specs.Working.{HasDrawn, IsReady};

use crate::piece::draw_piece;
use crate::plan::Plan;
use min_frame::{Frame, Seat};
use view_ends::Beside;

/// One of those who draw a frame side by side: its number, from 0, and its seat.
#[derive(Drop)]
pub(crate) struct Worker {
    pub(crate) number: u32,
    pub(crate) seat: Seat,
}

/// Claims pieces until none is left, tells of each claim, and draws the piece.
pub(crate) fn work<B: Beside>(plan: &Plan, frame: &Frame, beside: &B, worker: &mut Worker)
    requires fits { IsFrameFor plan.now frame.now }
    requires ready { IsReady frame.now.name worker.old.seat }
    ensures drawn { HasDrawn plan.now frame.now.name worker.new.seat }
    ensures root { worker.new.seat.root ≡ worker.old.seat.root }
    ensures out { worker.new.seat.out ≡ worker.old.seat.out }
{
    while let Some(claimed) = frame.claim(&mut worker.seat) {
        beside.arrive(worker.number, claimed);
        draw_piece(plan, frame, &mut worker.seat, claimed);
    }
}
