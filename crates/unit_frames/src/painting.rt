//! Workers who have to meet over the words that they paint.
ghost use Rattle.std.specs.Prelude.{◌≡◌, All, length, true};
ghost use Rattle.resolve_colour.specs.Names.{NamesOne};
ghost use Rattle.view_base.specs.declared.colour.Colouring.TheVariants as by;
ghost use Rattle.view_meaning.specs.Picture.{can_colour};
ghost use Rattle.view_meaning.specs.Survey.{record_count, format_of};

use crate::colours::{fill_row, one_record};
use class_pages::{Classes, base};
use las_survey::Survey;
use resolve_colour::{PixelWords, can_colour, colours};
use std::alloc::Global;
use std::hint::spin_loop;
use std::process::Abort;
use std::sync::atomic::{AtomicU64, Ordering};
use std::test::Fail;
use std::thread::Threads;
use view_base::{Bytes, Colouring, OutOfMemory, Words};

/// How often a held worker looks for the other one.
const TURNS: u32 = 100_000_000;

/// A row of words, whose first is told once the last was asked for, and the last once the first was.
#[derive(Drop)]
struct Row {
    list: Words,
    first: AtomicU64,
    last: AtomicU64,
    late: AtomicU64,
}

impl Row {
    /// Notes a call, and waits for the other one, so many turns at most.
    fn meet(&self, mine: &AtomicU64, other: &AtomicU64) {
        mine.fetch_add(1, Ordering::SeqCst);
        for _ in 0..TURNS {
            if other.load(Ordering::SeqCst) > 0 {
                return;
            }
            spin_loop();
        }
        self.late.fetch_add(1, Ordering::SeqCst);
    }
}

impl PixelWords for Row {
    ghost words = { λ row. row.list.items };

    fn len(&self) -> usize {
        self.list.as_slice().len()
    }

    fn word(&self, pixel: usize) -> u64 {
        if pixel == 0 {
            self.meet(&self.first, &self.last);
        }
        if pixel == 9000 {
            self.meet(&self.last, &self.first);
        }
        self.list.as_slice()[pixel]
    }
}

/// The colours of the row by two workers, who have to meet.
fn painted_by_two<R: Abort + Threads + Sync>(
    rt: &R,
    alloc: Global,
    row: &Row,
    survey: &Survey,
    classes: &Classes,
) -> Result<(), OutOfMemory>
    requires can_colour { can_colour (format_of survey.now) by.Class ≡ true }
    requires records { record_count survey.now ≡ 1 }
    requires classes { length classes.now ≡ 1 }
    requires names { All (NamesOne 1) row.now.list.items }
    requires size { length row.now.list.items ≡ 9001 }
{
    let mut out = Bytes::new(alloc);
    out.reserve(27003)?;
    colours(rt, 2, row, survey, classes, Colouring::Class, &mut out);
    let late = row.late.load(Ordering::SeqCst);
    assert!(rt; late == 0 && out.len() == 27003);
    Ok(())
}

/// Makes the row and has it painted.
fn paint_row<R: Abort + Threads + Sync>(
    rt: &R,
    alloc: Global,
    survey: &Survey,
    classes: &Classes,
) -> Result<(), OutOfMemory> {
    assert!(rt; survey.records() == 1 && classes.len() == 1);
    assert!(rt; can_colour(survey.header().format, Colouring::Class));
    let mut list = Words::new(alloc);
    list.reserve(9001)?;
    fill_row(&mut list);
    let row = Row {
        list,
        first: AtomicU64::new(0),
        last: AtomicU64::new(0),
        late: AtomicU64::new(0),
    };
    painted_by_two(rt, alloc, &row, survey, classes)
}

#[test]
fn two_workers_paint_at_the_same_time(rt: HostRuntime) -> Result<(), Fail> {
    let survey = one_record(rt.alloc())?;
    let classes = base(rt.alloc(), &survey)?;
    paint_row(&rt, rt.alloc(), &survey, &classes)?;
    Ok(())
}
