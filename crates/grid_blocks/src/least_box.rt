ghost use Rattle.std.specs.Prelude.{◌≡◌, ◌+◌, ◌<◌, ◌≤◌, ◌^◌, List, [], ◌∷◌, ◌++◌, length, map};
ghost use Rattle.std.specs.Int.{int_min, int_max};
ghost use Rattle.std.specs.List.{range_with_len};
ghost use Rattle.std.specs.Thread.{IsSync};
ghost use Rattle.grid_blocks.specs.LeastBox.{HasRecords, IsLeastBox};
ghost use Rattle.view_base.specs.declared.place.Point as point;
ghost use Rattle.view_meaning.specs.Survey.{point_of, record_count};

use crate::sharing::{SHARED, front_share};
use las_points::xyz;
use las_survey::Survey;
use std::thread::{Threads, join};
use view_base::{Box3, Point};

/// The least box of some points.
pub(crate) fn box_of_points(points: &[Point]) -> Box3
    requires { 1 ≤ length points.now }
    ensures { IsLeastBox points.now result }
{
    let mut area = Box3 {
        min: points[0],
        max: points[0],
    };
    for i in 1..points.len() {
        area = widened(area, points[i]);
    }
    area
}

/// The least box of so many records from a number on, by workers side by side, each with its share
/// of the records, or by one where they are few.
pub(crate) fn box_side_by_side<R: Threads + Sync>(
    rt: &R,
    workers: u32,
    survey: &Survey,
    first: u32,
    count: u32,
) -> Box3
    requires { HasRecords survey.now first count workers }
    ensures { IsLeastBox (map (point_of survey.now) (range_with_len first count)) result }
{
    if workers < 2 || (count as usize) < SHARED {
        return box_of_records(survey, first, count);
    }
    let front_workers = workers / 2;
    let back_workers = workers - front_workers;
    let half = front_share(count as usize, workers) as u32;
    let mid = first + half;
    let rest = count - half;
    let (front, back) = join(
        rt,
        || -> Box3
            requires { IsSync R.row × HasRecords survey.now first half front_workers }
            ensures { IsLeastBox (map (point_of survey.entry.now) (range_with_len first half)) result }
        { box_side_by_side(rt, front_workers, survey, first, half) },
        || -> Box3
            requires { IsSync R.row × HasRecords survey.now mid rest back_workers }
            ensures { IsLeastBox (map (point_of survey.entry.now) (range_with_len mid rest)) result }
        { box_side_by_side(rt, back_workers, survey, mid, rest) },
    );
    joined(front, back)
}

/// The least box that holds two boxes.
fn joined(front: Box3, back: Box3) -> Box3
    ensures { (xs ys : List point.Point) → IsLeastBox xs front → IsLeastBox ys back → IsLeastBox (xs ++ ys) result }
{
    Box3 {
        min: lesser(front.min, back.min),
        max: greater(front.max, back.max),
    }
}

/// The least box of so many records from a number on.
pub(crate) fn box_of_records(survey: &Survey, first: u32, count: u32) -> Box3
    requires some { 1 ≤ count }
    requires within { first + count ≤ record_count survey.now }
    requires few { first + count < 2 ^ 32 }
    ensures { IsLeastBox (map (point_of survey.now) (range_with_len first count)) result }
{
    let p = xyz(survey.point_bytes(first));
    let mut area = Box3 { min: p, max: p };
    for i in first + 1..first + count {
        area = widened(area, xyz(survey.point_bytes(i)));
    }
    area
}

/// The least box that holds a box and a point.
#[inline]
fn widened(area: Box3, p: Point) -> Box3
    ensures { (points : List point.Point) → IsLeastBox points area → IsLeastBox (points ++ p ∷ []) result }
{
    Box3 {
        min: lesser(area.min, p),
        max: greater(area.max, p),
    }
}

/// The lesser of two places in each coordinate.
#[inline]
fn lesser(p: Point, q: Point) -> Point
    ensures x { result.x ≡ int_min p.x q.x }
    ensures y { result.y ≡ int_min p.y q.y }
    ensures z { result.z ≡ int_min p.z q.z }
{
    Point {
        x: p.x.min(q.x),
        y: p.y.min(q.y),
        z: p.z.min(q.z),
    }
}

/// The greater of two places in each coordinate.
#[inline]
fn greater(p: Point, q: Point) -> Point
    ensures x { result.x ≡ int_max p.x q.x }
    ensures y { result.y ≡ int_max p.y q.y }
    ensures z { result.z ≡ int_max p.z q.z }
{
    Point {
        x: p.x.max(q.x),
        y: p.y.max(q.y),
        z: p.z.max(q.z),
    }
}
