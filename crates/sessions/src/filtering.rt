ghost use Rattle.std.specs.Prelude.{◌≡◌, ℕ, ◌+◌, ◌≤◌, ◌<◌, ◌^◌, ◌&&◌, not, List, length, take, drop};
ghost use Rattle.std.specs.List.{count_by, range_with_len};
ghost use Rattle.sessions.specs.Passing.{class_passes, record_passes};
ghost use Rattle.view_meaning.specs.Classes.{has, passes};
ghost use Rattle.view_meaning.specs.Survey.{record_count, withheld_of};

use crate::filter_table::FilterTable;
use las_points::withheld;
use las_survey::Survey;

/// How many records pass of those that have these classes, from record `first` on. Their bytes are
/// read only where withheld records are hidden, and of those alone whose class passes.
pub(crate) fn count_run(survey: &Survey, filter: &FilterTable, run: &[u8], first: u32) -> u32
    requires within { first + length run.now ≤ record_count survey.now }
    requires small { first + length run.now < 2 ^ 32 }
    ensures counted { (all : List ℕ) → run.now ≡ take (length run.now) (drop first all)
        → result ≡ count_by (passes survey.now all filter.now) (range_with_len first (length run.now)) }
    ensures few { result ≤ length run.now }
{
    if filter.hides_withheld() {
        return count_shown(survey, filter, run, first);
    }
    if filter.has_all() {
        return run.len() as u32;
    }
    count_classes(filter, run)
}

/// How many of these classes are a filter's.
fn count_classes(filter: &FilterTable, run: &[u8]) -> u32
    requires { length run.now < 2 ^ 32 }
    ensures counted { result ≡ count_by (class_passes filter.now run.now) (range_with_len 0 (length run.now)) }
    ensures few { result ≤ length run.now }
{
    let mut passing = 0;
    for k in 0..run.len() {
        passing += u32::from(filter.has(run[k]));
    }
    passing
}

/// How many of the records that have these classes, from record `first` on, have one of a filter's
/// and are not withheld.
fn count_shown(survey: &Survey, filter: &FilterTable, run: &[u8], first: u32) -> u32
    requires within { first + length run.now ≤ record_count survey.now }
    requires small { first + length run.now < 2 ^ 32 }
    ensures counted { result
        ≡ count_by (record_passes survey.now filter.now run.now first) (range_with_len 0 (length run.now)) }
    ensures few { result ≤ length run.now }
{
    let mut passing = 0;
    for k in 0..run.len() {
        passing += u32::from(shows(survey, filter, run[k], first + k as u32));
    }
    passing
}

/// Whether a record of this class has one of a filter's and is not withheld. Its bytes are read
/// only where its class passes.
#[inline]
fn shows(survey: &Survey, filter: &FilterTable, class: u8, number: u32) -> bool
    requires { number < record_count survey.now }
    ensures { result ≡ (has filter.now.classes class && not (withheld_of survey.now number)) }
{
    filter.has(class) && !is_withheld(survey, number)
}

/// Whether a record is withheld.
#[inline]
fn is_withheld(survey: &Survey, number: u32) -> bool
    requires { number < record_count survey.now }
    ensures { result ≡ withheld_of survey.now number }
{
    withheld(survey.header().format, survey.point_bytes(number))
}
