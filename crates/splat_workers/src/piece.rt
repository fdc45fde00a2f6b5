ghost use Rattle.std.specs.Prelude.{◌≡◌, ◌*◌, ◌<◌, All, length};
ghost use Rattle.grid_blocks.specs.Blocks.{IsBlocks};
ghost use Rattle.splat_workers.specs.Drawing.{piece_pairs};
ghost use Rattle.splat_workers.specs.Waiting.{plotting};
ghost use Rattle.view_meaning.specs.Survey.{record_count};

use crate::batch::Batch;
use crate::block::draw_block;
use crate::plan::Plan;
use min_frame::{Frame, Seat};

/// Plots the records of a piece's blocks that pass the plan's filter and are in view.
pub(crate) fn draw_piece(plan: &Plan, frame: &Frame, seat: &mut Seat, piece: u32)
    requires records { length plan.now.classes.now ≡ record_count plan.now.survey.now }
    requires blocks { IsBlocks plan.now.survey.now plan.now.blocks.now }
    requires kept { All (λ k. k < length plan.now.blocks.now.blocks) plan.now.kept.now }
    requires piece { piece * plan.now.step < length plan.now.kept.now }
    requires frame { seat.old.frame ≡ frame.now.name }
    requires pixels { frame.now.pixels ≡ plan.now.camera.now.width * plan.now.camera.now.height }
    ensures { seat.new ≡ plotting seat.old (piece_pairs plan.now piece) }
{
    let kept = plan.kept.count();
    let first = piece * plan.step;
    let count = plan.step.min(kept - first);
    let mut batch = Batch::new(plan.camera.width() * plan.camera.height());
    for place in first..first + count {
        draw_block(plan, frame, seat, &mut batch, plan.kept.at(place));
    }
    batch.flush(frame, seat);
}
