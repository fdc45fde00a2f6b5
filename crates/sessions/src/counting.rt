ghost use Rattle.std.specs.Prelude.{◌≡◌, ◌+◌, ◌<◌, ◌≤◌, ◌^◌, length};
ghost use Rattle.std.specs.List.{count_by, range_with_len};
ghost use Rattle.std.specs.Thread.{IsSync};
ghost use Rattle.view_meaning.specs.Classes.{passes, passing};
ghost use Rattle.view_meaning.specs.Survey.{record_count};

use crate::filter_table::FilterTable;
use crate::filtering::count_run;
use class_bits::Filter;
use class_pages::Classes;
use las_survey::Survey;
use las_write::run_from;
use std::thread::{Threads, join_mut};

/// From how many records on a count is shared among workers.
const SHARED: u32 = 16_384;

/// How many records of a survey pass a filter under these classes. One pass over the records, which
/// takes no memory. So many workers, 1 to 64, count side by side where threads can be started, and
/// the number is the same for each.
pub fn count_passing<R: Threads + Sync>(
    rt: &R,
    workers: u32,
    survey: &Survey,
    classes: &Classes,
    filter: &Filter,
) -> u32
    requires workers { (1 ≤ workers) × (workers ≤ 64) }
    requires records { length classes.now ≡ record_count survey.now }
    ensures { result ≡ passing survey.now classes.now filter.now }
{
    let table = FilterTable::of(filter);
    count_side_by_side(rt, workers, survey, classes, &table, 0, survey.records())
}

/// How many of so many records from a number on pass, counted by workers side by side, each with
/// its share of the numbers, or by one where they are few.
fn count_side_by_side<R: Threads + Sync>(
    rt: &R,
    workers: u32,
    survey: &Survey,
    classes: &Classes,
    filter: &FilterTable,
    first: u32,
    count: u32,
) -> u32
    requires records { length classes.now ≡ record_count survey.now }
    requires within { first + count ≤ record_count survey.now }
    requires small { first + count < 2 ^ 32 }
    ensures counted { result ≡ count_by (passes survey.now classes.now filter.now) (range_with_len first count) }
    ensures few { result ≤ count }
{
    if workers < 2 || count < SHARED {
        return count_each(survey, classes, filter, first, count);
    }
    let front_workers = workers / 2;
    let back_workers = workers - front_workers;
    let half = front_share(count, workers);
    let rest = count - half;
    let (front, back) = join_mut(
        rt,
        &mut ||
            requires { IsSync R.row × (length classes.now ≡ record_count survey.now) × (first + half ≤ record_count survey.now) × (first + half < 2 ^ 32) }
            ensures { (result ≡ count_by (passes survey.entry.now classes.entry.now filter.entry.now) (range_with_len first half)) × (result ≤ half) }
        { count_side_by_side(rt, front_workers, survey, classes, filter, first, half) },
        &mut ||
            requires { IsSync R.row × (length classes.now ≡ record_count survey.now)
                × (first + half + rest ≤ record_count survey.now) × (first + half + rest < 2 ^ 32) }
            ensures { (result ≡ count_by (passes survey.entry.now classes.entry.now filter.entry.now) (range_with_len (first + half) rest)) × (result ≤ rest) }
        {
            count_side_by_side(
                rt,
                back_workers,
                survey,
                classes,
                filter,
                first + half,
                rest,
            )
        },
    );
    front + back
}

/// How many of so many records the first half of the workers counts.
fn front_share(count: u32, workers: u32) -> u32
    requires { 1 ≤ workers }
    ensures { result ≤ count }
{
    count / workers * (workers / 2)
}

/// How many of so many records from a number on pass, page by page.
fn count_each(
    survey: &Survey,
    classes: &Classes,
    filter: &FilterTable,
    first: u32,
    count: u32,
) -> u32
    requires records { length classes.now ≡ record_count survey.now }
    requires within { first + count ≤ record_count survey.now }
    requires small { first + count < 2 ^ 32 }
    ensures counted { result ≡ count_by (passes survey.now classes.now filter.now) (range_with_len first count) }
    ensures few { result ≤ count }
{
    let mut passing = 0;
    let mut done = 0;
    while done < count {
        let number = first + done;
        let run = run_from(classes, number, (count - done) as usize);
        passing += count_run(survey, filter, run, number);
        done += run.len() as u32;
    }
    passing
}
