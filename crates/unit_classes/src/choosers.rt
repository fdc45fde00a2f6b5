//! Classes that another chooser than an edit picks, by pages and by blocks.
ghost use Rattle.std.specs.Prelude.{◌≡◌, length};
ghost use Rattle.grid_blocks.specs.Blocks.{IsBlocks};
ghost use Rattle.view_meaning.specs.Survey.{record_count};
ghost use Rattle.unit_classes.specs.Six.{six};

use crate::made::{are_all, owners, survey};
use class_pages::{Chooser, Classes, base};
use grid_blocks::{Blocks, build, build_by_number};
use las_survey::Survey;
use std::alloc::Global;
use std::process::Abort;
use std::test::Fail;
use std::thread::Threads;
use version_store::chosen_by;
use view_base::Point;

/// Picks class 6 for each record, and says of no box that it leaves it or is even in it.
struct Six;

impl Chooser for Six {
    ghost picks = { λ it. six };

    fn choose(&self, _p: Point, _class: u8) -> u8 {
        6
    }
}

/// How many change by pages and by blocks, and then once more; and whether each record has class 6.
fn chosen_twice(
    rt: &impl Abort,
    alloc: Global,
    survey: &Survey,
    blocks: &Blocks,
) -> Result<([u64; 3], bool), Fail>
    requires { IsBlocks survey.now blocks.now }
{
    let read = base(alloc, survey)?;
    let (by_pages, first) = read.chosen(alloc, survey, &Six)?;
    let (by_blocks, second) = chosen_by(alloc, survey, blocks, &read, &Six)?;
    let (again, third) = chosen_by(alloc, survey, blocks, &by_blocks, &Six)?;
    assert_eq!(rt; owners(rt, &again), [2, 2]);
    Ok((
        [first, second, third],
        are_all(&by_pages, 6) & are_all(&again, 6),
    ))
}

/// 8192 records of class 2, over blocks by number and by cells.
fn chosen_over_both<R: Abort + Threads + Sync>(
    rt: &R,
    alloc: Global,
) -> Result<[([u64; 3], bool); 2], Fail> {
    let survey = survey(alloc, 8192, 1)?;
    let numbered = chosen_twice(rt, alloc, &survey, &build_by_number(alloc, &survey)?)?;
    let cells = chosen_twice(rt, alloc, &survey, &build(alloc, rt, 2, &survey)?)?;
    Ok([numbered, cells])
}

#[test]
fn a_chooser_picks_the_class_of_each_record(rt: HostRuntime) -> Result<(), Fail> {
    let got = chosen_over_both(&rt, rt.alloc())?;
    assert_eq!(rt; got, [([8192, 8192, 0], true), ([8192, 8192, 0], true)]);
    Ok(())
}
