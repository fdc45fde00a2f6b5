ghost use Rattle.std.specs.Prelude.{◌≡◌, ◌≤◌, ◌++◌, OnOk, OnErr, codes, length, true};
ghost use Rattle.std.specs.Arc.{arc_value};
ghost use Rattle.class_pages.specs.Fitting.{EachFits};
ghost use Rattle.view_ends.specs.Ends.{Gains, GainsPart};
ghost use Rattle.view_meaning.specs.Classes.{passing, saved};
ghost use Rattle.view_meaning.specs.Picture.{can_colour, picture};
ghost use Rattle.view_meaning.specs.Survey.{format_of, record_count};
ghost use Rattle.sessions.specs.Giving.{Gave};
ghost use Rattle.sessions.specs.Session.{head, with_length};
ghost use Rattle.sessions.specs.Worlds.{IsScene};

use crate::counting::count_passing;
use crate::drawing::{Scene, picture};
use crate::heads::{HEAD, append_head};
use class_bits::Filter;
use class_pages::Classes;
use las_survey::Survey;
use las_write::write_survey;
use ppm_out::ppm_length;
use std::alloc::Global;
use std::thread::Threads;
use view_base::{Bytes, OutOfMemory, Version};
use view_ends::{Beside, EndFault, Sink, give_all};
use view_text::ViewSpec;

/// Appends the reply to a view: its head line and the picture under the classes of a version. A
/// refusal is want of memory and leaves what was there as it was.
pub fn append_picture<R: Threads + Sync, B: Beside>(
    alloc: Global,
    rt: &R,
    scene: &Scene,
    classes: &Classes,
    version: Version,
    view: &ViewSpec,
    beside: &B,
    out: &mut Bytes,
) -> Result<(), OutOfMemory>
    requires scene { IsScene scene.now }
    requires records { length classes.now ≡ record_count (arc_value scene.now.survey) }
    requires can_colour { can_colour (format_of (arc_value scene.now.survey)) view.now.colouring ≡ true }
    ensures appended { OnOk result (out.new.items ≡ out.old.items
        ++ with_length (codes "PICTURE") version (picture (arc_value scene.now.survey) classes.now view.now)) }
    ensures refused { OnErr result (out.new.items ≡ out.old.items) }
{
    let before = out.len();
    out.reserve(HEAD)?;
    let length = ppm_length(view.camera.width(), view.camera.height());
    append_head(out, b"PICTURE", version, length);
    let drawn = picture(alloc, rt, scene, classes, view, beside, out);
    if drawn.is_err() {
        out.cut(before);
    }
    drawn
}

/// Appends the reply to a count: how many records pass a filter under the classes of a version. The
/// scene's workers count side by side. The reply fits in the room, so this takes no memory.
pub fn append_count<R: Threads + Sync>(
    rt: &R,
    scene: &Scene,
    classes: &Classes,
    version: Version,
    filter: &Filter,
    out: &mut Bytes,
)
    requires scene { IsScene scene.now }
    requires records { length classes.now ≡ record_count (arc_value scene.now.survey) }
    requires room { HEAD ≤ out.old.spare }
    ensures { out.new.items ≡ out.old.items ++ head (codes "COUNT") version (passing (arc_value scene.now.survey) classes.now filter.now) }
{
    let passing = count_passing(rt, scene.workers, &scene.survey, classes, filter);
    append_head(out, b"COUNT", version, u64::from(passing));
}

/// Gives the reply to a save: a head line, for which `out` has room and is empty, and the whole
/// file with the classes of a version, which is streamed and takes no memory.
pub(crate) fn give_file<O: Sink>(
    survey: &Survey,
    classes: &Classes,
    version: Version,
    out: &mut Bytes,
    sink: &mut O,
) -> Result<(), EndFault>
    requires records { length classes.now ≡ record_count survey.now }
    requires fits { EachFits (format_of survey.now) classes.now }
    requires room { HEAD ≤ out.old.spare }
    requires empty { length out.old.items ≡ 0 }
    ensures given { OnOk result (Gains (O.got sink.old) (with_length (codes "FILE") version (saved survey.now classes.now)) (O.got sink.new)) }
    ensures part { OnErr result (GainsPart (O.got sink.old) (with_length (codes "FILE") version (saved survey.now classes.now)) (O.got sink.new)) }
    ensures gave { Gave (O.faults sink.old) (O.faults sink.new) result }
{
    append_head(out, b"FILE", version, survey.bytes().len() as u64);
    give_all(sink, out.as_slice())?;
    write_survey(survey, classes, sink)
}
