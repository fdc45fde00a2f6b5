ghost use Rattle.std.specs.Prelude.{◌≡◌, ◌+◌, ◌*◌, ◌++◌, OnOk, OnErr, length, drop, true};
ghost use Rattle.std.specs.Arc.{arc_value};
ghost use Rattle.sessions.specs.Shown.{ShowsNearest};
ghost use Rattle.sessions.specs.Worlds.{IsScene};
ghost use Rattle.view_meaning.specs.Picture.{can_colour, picture, ppm_header};
ghost use Rattle.view_meaning.specs.Survey.{record_count, format_of};

use class_pages::Classes;
use grid_blocks::Blocks;
use las_survey::Survey;
use min_frame::EmptyWords;
use ppm_out::{HEADER, ppm_header};
use resolve_colour::colours;
use splat_workers::nearest_words;
use std::alloc::Global;
use std::sync::Arc;
use std::thread::Threads;
use view_base::{Bytes, OutOfMemory};
use view_ends::Beside;
use view_text::ViewSpec;

/// A survey as pictures of it are drawn.
#[derive(Drop)]
pub struct Scene {
    /// The survey.
    pub survey: Arc<Survey>,
    /// Its records in blocks. The picture is the same for each way of cutting them.
    pub blocks: Arc<Blocks>,
    /// How many workers draw a picture, 1 to 64. The picture is the same for each number.
    pub workers: u32,
    /// What the frames of pictures are copied from that have as many pixels or fewer.
    pub empty: EmptyWords,
}

/// Appends the whole picture of a survey under these classes, as a binary PPM of
/// `ppm_length(width, height)` bytes. The scene's workers draw it side by side, and `beside` is told
/// of each piece of the work that one of them claimed. A refusal is want of memory and leaves what
/// was there as it was.
pub fn picture<R: Threads + Sync, B: Beside>(
    alloc: Global,
    rt: &R,
    scene: &Scene,
    classes: &Classes,
    view: &ViewSpec,
    beside: &B,
    out: &mut Bytes,
) -> Result<(), OutOfMemory>
    requires scene { IsScene scene.now }
    requires records { length classes.now ≡ record_count (arc_value scene.now.survey) }
    requires can_colour { can_colour (format_of (arc_value scene.now.survey)) view.now.colouring ≡ true }
    ensures drawn { OnOk result (out.new.items ≡ out.old.items ++ picture (arc_value scene.now.survey) classes.now view.now) }
    ensures size { OnOk result (length (picture (arc_value scene.now.survey) classes.now view.now)
        ≡ length (ppm_header view.now.camera.width view.now.camera.height)
        + 3 * (view.now.camera.width * view.now.camera.height)) }
    ensures nearest { OnOk result (ShowsNearest (arc_value scene.now.survey) classes.now view.now (drop (length out.old.items) out.new.items)) }
    ensures refused { OnErr result (out.new.items ≡ out.old.items) }
{
    let survey = &*scene.survey;
    let words = nearest_words(
        alloc,
        rt,
        survey,
        classes,
        &scene.blocks,
        view,
        scene.workers,
        &scene.empty,
        beside,
    )?;
    out.reserve(HEADER + 3 * words.len())?;
    ppm_header(view.camera.width(), view.camera.height(), out);
    colours(
        rt,
        scene.workers,
        &words,
        survey,
        classes,
        view.colouring,
        out,
    );
    Ok(())
}
