ghost use Rattle.std.specs.Prelude.{◌≡◌, ◌-◌, ◌≤◌, ◌^◌, IfOk, OnOk, length};
ghost use Rattle.grid_blocks.specs.Blocks.{IsBlocks};
ghost use Rattle.view_meaning.specs.Frame.{IsFrame, NamesNearest};
ghost use Rattle.view_meaning.specs.Survey.{record_count};

use crate::drawing::draw_words;
use crate::plan::{Plan, step_for};
use class_pages::Classes;
use cull_boxes::kept;
use grid_blocks::Blocks;
use las_survey::Survey;
use min_frame::{EmptyWords, Frame, FrameWords, MOST_BLOCKS};
use std::alloc::Global;
use std::thread::Threads;
use view_base::OutOfMemory;
use view_ends::Beside;
use view_text::ViewSpec;

/// One word for each pixel, row by row from the top left: the depth of the nearest record that
/// passes the view's filter above its number, so that the least word is the nearest record and, at
/// equal depths, the lower number (the packed depth of Schütz et al. 2021), or all ones where no
/// record that passes falls. So many workers, 1 to 64, draw them side by side, on a frame that is
/// copied from the empty words where there are as many; the words hang on neither.
pub fn nearest_words<R: Threads + Sync, B: Beside>(
    alloc: Global,
    rt: &R,
    survey: &Survey,
    classes: &Classes,
    blocks: &Blocks,
    view: &ViewSpec,
    workers: u32,
    empty: &EmptyWords,
    beside: &B,
) -> Result<FrameWords, OutOfMemory>
    requires workers { (1 ≤ workers) × (workers ≤ 64) }
    requires records { length classes.now ≡ record_count survey.now }
    requires blocks { IsBlocks survey.now blocks.now }
    ensures words { IfOk result (λ words. IsFrame survey.now classes.now view.now words) }
    ensures nearest { IfOk result (λ words. NamesNearest survey.now classes.now view.now words) }
    // So a record's number fits the lower half of a word, and a depth the upper.
    ensures few { OnOk result (record_count survey.now ≤ 53687091) }
    ensures shallow { OnOk result (view.now.camera.far ≤ 2 ^ 32 - 2) }
{
    // A survey has at most as many records as a frame may have blocks.
    prove!(survey.records() <= MOST_BLOCKS);
    let kept = kept(alloc, &view.camera, blocks)?;
    let pixels = view.camera.width() * view.camera.height();
    let plan = Plan {
        survey,
        classes,
        blocks,
        kept: &kept,
        camera: &view.camera,
        filter: &view.filter,
        step: step_for(kept.count()),
    };
    let (frame, root) = Frame::new(alloc, empty, pixels, plan.pieces(), workers)?;
    match draw_words(alloc, rt, &plan, &frame, root, workers, beside) {
        Ok(root) => Ok(frame.close(root)),
        Err((refusal, _)) => Err(refusal),
    }
}
