//! Frames as workers draw them.
ghost use Rattle.std.specs.Prelude.{◌≡◌, ◌<◌, ◌≤◌, All, length};
ghost use Rattle.grid_blocks.specs.Blocks.{IsBlocks};
ghost use Rattle.view_meaning.specs.Survey.{record_count};

use class_bits::{ClassSet, Filter};
use class_pages::base;
use cull_boxes::kept;
use grid_blocks::build;
use int_camera::{Camera, CameraNumbers, Kind};
use las_survey::Survey;
use min_frame::{EmptyWords, Frame, FrameWords};
use splat_workers::{Plan, draw_words};
use std::alloc::Global;
use std::process::Abort;
use std::thread::Threads;
use view_base::{Colouring, OutOfMemory};
use view_ends::Beside;
use view_text::ViewSpec;

/// One pixel, along Z, a unit a pixel and a unit of depth.
pub(crate) const ONE_PIXEL: [i128; 18] = [1, 1, 0, 0, 0, 1, 0, 0, 0, 1, 0, 0, 0, 1, 1, 1, 0, 10];

/// The view of these classes by a parallel camera.
pub(crate) fn view_of(
    rt: &impl Abort,
    n: [i128; 18],
    classes: ClassSet,
    hide_withheld: bool,
) -> ViewSpec {
    let kind = Kind::Ortho;
    let camera = Camera::new(&CameraNumbers { kind, n }).expect(rt, "a camera");
    ViewSpec {
        camera,
        colouring: Colouring::Class,
        filter: Filter {
            classes,
            hide_withheld,
        },
    }
}

/// Draws with so many workers on a frame of its own, by this many pieces of so many blocks.
pub(crate) fn drawn_by<R: Abort + Threads + Sync, B: Beside>(
    rt: &R,
    alloc: Global,
    survey: &Survey,
    view: &ViewSpec,
    cut: (u32, u32),
    workers: u32,
    beside: &B,
) -> Result<FrameWords, OutOfMemory>
    requires { (1 ≤ workers) × (workers ≤ 64) }
{
    let (step, pieces) = cut;
    assert!(rt; step >= 1);
    let classes = base(alloc, survey)?;
    let blocks = build(alloc, rt, 1, survey)?;
    let kept = kept(alloc, &view.camera, &blocks)?;
    let plan = Plan {
        survey,
        classes: &classes,
        blocks: &blocks,
        kept: &kept,
        camera: &view.camera,
        filter: &view.filter,
        step,
    };
    draw_plan(rt, alloc, &plan, pieces, workers, beside)
}

/// Draws a plan of this many pieces with so many workers.
fn draw_plan<R: Abort + Threads + Sync, B: Beside>(
    rt: &R,
    alloc: Global,
    plan: &Plan,
    pieces: u32,
    workers: u32,
    beside: &B,
) -> Result<FrameWords, OutOfMemory>
    requires workers { (1 ≤ workers) × (workers ≤ 64) }
    requires classes { length plan.now.classes.now ≡ record_count plan.now.survey.now }
    requires blocks { IsBlocks plan.now.survey.now plan.now.blocks.now }
    requires kept { All (λ k. k < length plan.now.blocks.now.blocks) plan.now.kept.now }
    requires step { 1 ≤ plan.now.step }
{
    assert!(rt; pieces <= 5 && plan.pieces() == pieces);
    let pixels = plan.camera.width() * plan.camera.height();
    let empty = EmptyWords::none(alloc);
    let (frame, root) = Frame::new(alloc, &empty, pixels, pieces, workers)?;
    match draw_words(alloc, rt, plan, &frame, root, workers, beside) {
        Ok(root) => Ok(frame.close(root)),
        Err((refusal, _)) => Err(refusal),
    }
}

/// Whether these are the frame's words.
pub(crate) fn are(words: &FrameWords, wanted: &[u64]) -> bool {
    if words.len() != wanted.len() {
        return false;
    }
    for (pixel, word) in wanted.iter().enumerate() {
        if words.word(pixel) != *word {
            return false;
        }
    }
    true
}
