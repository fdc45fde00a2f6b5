ghost use Rattle.std.specs.Prelude.{◌≡◌, replicate};
ghost use Rattle.std.specs.Int.{int_min, int_max};
ghost use Rattle.survey_info.specs.Corners.{picked};
ghost use Rattle.survey_info.specs.Text.{area_of, class_counts};

use class_bits::class_of;
use las_points::{class_place, xyz};
use las_survey::Survey;
use view_base::{Box3, Point};

/// What the records of a survey have together.
#[derive(Drop)]
pub struct Summary {
    /// The least box that holds them all, or `None` where there are none.
    pub area: Option<Box3>,
    /// How many records each class has, by class.
    pub counts: [u32; 256],
}

impl Summary {
    /// The summary of a survey under the classes in its file. One pass over the records.
    pub fn of(survey: &Survey) -> Summary
        ensures area { result.area ≡ area_of survey.now }
        ensures counts { result.counts ≡ class_counts survey.now }
    {
        let mut counts = [0; 256];
        let area = tally(survey, &mut counts);
        Summary { area, counts }
    }
}

/// The least box of the records, if there are any, while they are counted by class.
fn tally(survey: &Survey, counts: &mut [u32]) -> Option<Box3>
    requires { counts.old ≡ replicate 256 0 }
    ensures area { result ≡ area_of survey.now }
    ensures counts { counts.new ≡ class_counts survey.now }
{
    if survey.records() == 0 {
        return None;
    }
    let format = survey.header().format;
    let first = xyz(survey.point_bytes(0));
    let (mut min, mut max) = (first, first);
    for i in 0..survey.records() {
        let rec = survey.point_bytes(i);
        let p = xyz(rec);
        min = lesser(min, p);
        max = greater(max, p);
        let class = class_of(format, rec[class_place(format)]);
        counts[usize::from(class)] += 1;
    }
    Some(Box3 { min, max })
}

/// The lesser of two places in each coordinate.
fn lesser(p: Point, q: Point) -> Point
    ensures { result ≡ picked int_min p q }
{
    Point {
        x: p.x.min(q.x),
        y: p.y.min(q.y),
        z: p.z.min(q.z),
    }
}

/// The greater of two places in each coordinate.
fn greater(p: Point, q: Point) -> Point
    ensures { result ≡ picked int_max p q }
{
    Point {
        x: p.x.max(q.x),
        y: p.y.max(q.y),
        z: p.z.max(q.z),
    }
}
