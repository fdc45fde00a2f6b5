ghost use Rattle.std.specs.Prelude.{◌≡◌, ◌+◌, ◌*◌, ◌<◌, ◌≤◌, ◌^◌, All, false, length, map};
ghost use Rattle.std.specs.Bool.{OnTrue};
ghost use Rattle.std.specs.List.{range_with_len};
ghost use Rattle.grid_blocks.specs.Blocks.{IsBlocks};
ghost use Rattle.splat_workers.specs.Drawing.{pairs_in_block, record_pairs};
ghost use Rattle.splat_workers.specs.Pairs.{pair_at};
ghost use Rattle.splat_workers.specs.Waiting.{drawn, plotting};
ghost use Rattle.view_meaning.specs.Camera.{spot};
ghost use Rattle.view_meaning.specs.Classes.{all_classes};
ghost use Rattle.view_meaning.specs.Survey.{point_of, record_count, withheld_of};

use crate::batch::Batch;
use crate::plan::Plan;
use class_bits::{ClassSet, Filter, passes};
use grid_blocks::BlockRecords;
use int_camera::{Camera, project};
use las_points::{withheld, xyz};
use min_frame::{Frame, Seat};
use view_base::Point;

/// Plots the records of block `k` that pass the plan's filter and are in view, among the plots that
/// wait.
pub(crate) fn draw_block(plan: &Plan, frame: &Frame, seat: &mut Seat, batch: &mut Batch, k: u32)
    requires records { length plan.now.classes.now ≡ record_count plan.now.survey.now }
    requires blocks { IsBlocks plan.now.survey.now plan.now.blocks.now }
    requires block { k < length plan.now.blocks.now.blocks }
    requires frame { seat.old.frame ≡ frame.now.name }
    requires waits { batch.old.pixels ≡ frame.now.pixels }
    requires pixels { frame.now.pixels ≡ plan.now.camera.now.width * plan.now.camera.now.height }
    ensures drawn { drawn seat.new batch.new ≡ plotting (drawn seat.old batch.old) (pairs_in_block plan.now k) }
    ensures frame { seat.new.frame ≡ seat.old.frame }
    ensures waits { batch.new.pixels ≡ batch.old.pixels }
{
    match plan.blocks.records(k) {
        Some(records) => draw_copied(plan, frame, seat, batch, &records),
        None => {
            let block = plan.blocks.block(k);
            draw_numbered(plan, frame, seat, batch, block.first, block.count);
        }
    }
}

/// Plots the records of a block that lie in memory one after another.
fn draw_copied(
    plan: &Plan,
    frame: &Frame,
    seat: &mut Seat,
    batch: &mut Batch,
    records: &BlockRecords,
)
    requires records { length plan.now.classes.now ≡ record_count plan.now.survey.now }
    requires numbers { All (λ number. number < record_count plan.now.survey.now) records.now.numbers.now }
    requires points { records.now.points.now ≡ map (point_of plan.now.survey.now) records.now.numbers.now }
    requires withheld { records.now.withheld.now ≡ map (withheld_of plan.now.survey.now) records.now.numbers.now }
    requires frame { seat.old.frame ≡ frame.now.name }
    requires waits { batch.old.pixels ≡ frame.now.pixels }
    requires pixels { frame.now.pixels ≡ plan.now.camera.now.width * plan.now.camera.now.height }
    ensures drawn { drawn seat.new batch.new ≡ plotting (drawn seat.old batch.old) (record_pairs plan.now records.now.numbers.now) }
    ensures frame { seat.new.frame ≡ seat.old.frame }
    ensures waits { batch.new.pixels ≡ batch.old.pixels }
{
    if lets_all_pass(plan.filter) {
        plot_each(plan, frame, seat, batch, records.numbers, records.points);
    } else {
        plot_passing(plan, frame, seat, batch, records);
    }
}

/// Plots the records of these numbers, which stand at these points, where the plan's filter lets
/// all pass.
fn plot_each(
    plan: &Plan,
    frame: &Frame,
    seat: &mut Seat,
    batch: &mut Batch,
    numbers: &[u32],
    points: &[Point],
)
    requires records { length plan.now.classes.now ≡ record_count plan.now.survey.now }
    requires numbers { All (λ number. number < record_count plan.now.survey.now) numbers.now }
    requires points { points.now ≡ map (point_of plan.now.survey.now) numbers.now }
    requires classes { plan.now.filter.now.classes ≡ all_classes }
    requires withheld { plan.now.filter.now.hide_withheld ≡ false }
    requires frame { seat.old.frame ≡ frame.now.name }
    requires waits { batch.old.pixels ≡ frame.now.pixels }
    requires pixels { frame.now.pixels ≡ plan.now.camera.now.width * plan.now.camera.now.height }
    ensures drawn { drawn seat.new batch.new ≡ plotting (drawn seat.old batch.old) (record_pairs plan.now numbers.now) }
    ensures frame { seat.new.frame ≡ seat.old.frame }
    ensures waits { batch.new.pixels ≡ batch.old.pixels }
{
    // A class is a byte, and the set of all classes has each byte.
    prove!(plan.classes.pages() <= u32::MAX);
    for place in 0..numbers.len() {
        plot_point(
            frame,
            seat,
            batch,
            plan.camera,
            points[place],
            numbers[place],
        );
    }
}

/// Plots those of a block's records that pass the plan's filter.
fn plot_passing(
    plan: &Plan,
    frame: &Frame,
    seat: &mut Seat,
    batch: &mut Batch,
    records: &BlockRecords,
)
    requires records { length plan.now.classes.now ≡ record_count plan.now.survey.now }
    requires numbers { All (λ number. number < record_count plan.now.survey.now) records.now.numbers.now }
    requires points { records.now.points.now ≡ map (point_of plan.now.survey.now) records.now.numbers.now }
    requires withheld { records.now.withheld.now ≡ map (withheld_of plan.now.survey.now) records.now.numbers.now }
    requires frame { seat.old.frame ≡ frame.now.name }
    requires waits { batch.old.pixels ≡ frame.now.pixels }
    requires pixels { frame.now.pixels ≡ plan.now.camera.now.width * plan.now.camera.now.height }
    ensures drawn { drawn seat.new batch.new ≡ plotting (drawn seat.old batch.old) (record_pairs plan.now records.now.numbers.now) }
    ensures frame { seat.new.frame ≡ seat.old.frame }
    ensures waits { batch.new.pixels ≡ batch.old.pixels }
{
    let numbers = records.numbers;
    for place in 0..numbers.len() {
        let number = numbers[place];
        let class = plan.classes.class_at(number);
        if passes(plan.filter, class, records.withheld[place]) {
            plot_point(
                frame,
                seat,
                batch,
                plan.camera,
                records.points[place],
                number,
            );
        }
    }
}

/// Plots the record of a number where it stands in the camera's picture: among those that wait, or
/// at once.
#[inline(always)]
fn plot_point(
    frame: &Frame,
    seat: &mut Seat,
    batch: &mut Batch,
    camera: &Camera,
    point: Point,
    number: u32,
)
    requires frame { seat.old.frame ≡ frame.now.name }
    requires waits { batch.old.pixels ≡ frame.now.pixels }
    requires pixels { frame.now.pixels ≡ camera.now.width * camera.now.height }
    ensures drawn { drawn seat.new batch.new ≡ plotting (drawn seat.old batch.old) (pair_at camera.now number (spot camera.now point)) }
    ensures frame { seat.new.frame ≡ seat.old.frame }
    ensures waits { batch.new.pixels ≡ batch.old.pixels }
{
    if let Some(spot) = project(camera, point) {
        let value = (u64::from(spot.depth) << 32) + u64::from(number);
        batch.plot(frame, seat, spot.pixel, value);
    }
}

/// Whether a filter lets every record pass, whatever its class and flags.
fn lets_all_pass(filter: &Filter) -> bool
    ensures classes { OnTrue result (filter.now.classes ≡ all_classes) }
    ensures withheld { OnTrue result (filter.now.hide_withheld ≡ false) }
{
    filter.classes == ClassSet::all() && !filter.hide_withheld
}

/// Plots the records of so many numbers from a first one on.
fn draw_numbered(
    plan: &Plan,
    frame: &Frame,
    seat: &mut Seat,
    batch: &mut Batch,
    first: u32,
    count: u32,
)
    requires records { length plan.now.classes.now ≡ record_count plan.now.survey.now }
    requires numbers { first + count ≤ record_count plan.now.survey.now }
    requires small { first + count < 2 ^ 32 }
    requires frame { seat.old.frame ≡ frame.now.name }
    requires waits { batch.old.pixels ≡ frame.now.pixels }
    requires pixels { frame.now.pixels ≡ plan.now.camera.now.width * plan.now.camera.now.height }
    ensures drawn { drawn seat.new batch.new ≡ plotting (drawn seat.old batch.old) (record_pairs plan.now (range_with_len first count)) }
    ensures frame { seat.new.frame ≡ seat.old.frame }
    ensures waits { batch.new.pixels ≡ batch.old.pixels }
{
    if lets_all_pass(plan.filter) {
        plot_each_numbered(plan, frame, seat, batch, first, count);
    } else {
        plot_passing_numbered(plan, frame, seat, batch, first, count);
    }
}

/// Plots the records of so many numbers, where the plan's filter lets all pass.
fn plot_each_numbered(
    plan: &Plan,
    frame: &Frame,
    seat: &mut Seat,
    batch: &mut Batch,
    first: u32,
    count: u32,
)
    requires records { length plan.now.classes.now ≡ record_count plan.now.survey.now }
    requires numbers { first + count ≤ record_count plan.now.survey.now }
    requires small { first + count < 2 ^ 32 }
    requires classes { plan.now.filter.now.classes ≡ all_classes }
    requires withheld { plan.now.filter.now.hide_withheld ≡ false }
    requires frame { seat.old.frame ≡ frame.now.name }
    requires waits { batch.old.pixels ≡ frame.now.pixels }
    requires pixels { frame.now.pixels ≡ plan.now.camera.now.width * plan.now.camera.now.height }
    ensures drawn { drawn seat.new batch.new ≡ plotting (drawn seat.old batch.old) (record_pairs plan.now (range_with_len first count)) }
    ensures frame { seat.new.frame ≡ seat.old.frame }
    ensures waits { batch.new.pixels ≡ batch.old.pixels }
{
    // A class is a byte, and the set of all classes has each byte.
    prove!(plan.classes.pages() <= u32::MAX);
    for number in first..first + count {
        let point = xyz(plan.survey.point_bytes(number));
        plot_point(frame, seat, batch, plan.camera, point, number);
    }
}

/// Plots those of the records of so many numbers that pass the plan's filter.
fn plot_passing_numbered(
    plan: &Plan,
    frame: &Frame,
    seat: &mut Seat,
    batch: &mut Batch,
    first: u32,
    count: u32,
)
    requires records { length plan.now.classes.now ≡ record_count plan.now.survey.now }
    requires numbers { first + count ≤ record_count plan.now.survey.now }
    requires small { first + count < 2 ^ 32 }
    requires frame { seat.old.frame ≡ frame.now.name }
    requires waits { batch.old.pixels ≡ frame.now.pixels }
    requires pixels { frame.now.pixels ≡ plan.now.camera.now.width * plan.now.camera.now.height }
    ensures drawn { drawn seat.new batch.new ≡ plotting (drawn seat.old batch.old) (record_pairs plan.now (range_with_len first count)) }
    ensures frame { seat.new.frame ≡ seat.old.frame }
    ensures waits { batch.new.pixels ≡ batch.old.pixels }
{
    let format = plan.survey.header().format;
    for number in first..first + count {
        let rec = plan.survey.point_bytes(number);
        let class = plan.classes.class_at(number);
        if passes(plan.filter, class, withheld(format, rec)) {
            plot_point(frame, seat, batch, plan.camera, xyz(rec), number);
        }
    }
}
