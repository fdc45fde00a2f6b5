ghost use Rattle.std.specs.Prelude.{◌≡◌, ◌≢◌, ◌+◌, ◌*◌, ◌^◌, ◌<◌, ◌≤◌, pos, length, Some};
ghost use Rattle.view_base.specs.Text.{number};
ghost use Rattle.view_base.specs.Fitting.{word_at};
ghost use Rattle.view_words.specs.CommandLine.{texts, IsLine, workers_place};

use crate::refusing::{MAX_RECORDS, MAX_WORKERS, number_within};
use crate::row::Row;

/// The text of the word at a place, from 0.
pub fn text_at(words: &[String], at: usize) -> &str
    requires { at < length words.now }
    ensures { result.now ≡ word_at (texts words.now) at }
{
    words[at].as_str()
}

/// The number of workers, 1 to 64, of a `draw`, `trial` or `serve`.
pub fn workers(row: Row, words: &[String]) -> u32
    requires line { IsLine row (texts words.now) }
    requires has { row ≢ Row.Info }
    ensures value { number (word_at (texts words.now) (workers_place row)) ≡ Some (pos result) }
    ensures some { 1 ≤ result }
    ensures few { result ≤ 64 }
{
    number_within(1, MAX_WORKERS, text_at(words, workers_place(row))).unwrap() as u32
}

/// The place of the number of workers.
fn workers_place(row: Row) -> usize
    ensures { result ≡ workers_place row }
{
    match row {
        Row::Serve => 2,
        _ => 3,
    }
}

/// The start of a `trial`.
pub fn start(words: &[String]) -> u64
    requires { IsLine Row.Trial (texts words.now) }
    ensures { number (word_at (texts words.now) 1) ≡ Some (pos result) }
{
    number_within(0, u64::MAX, text_at(words, 1)).unwrap()
}

/// The number of records, at most 2^23, of a `trial`.
pub fn records(words: &[String]) -> u32
    requires { IsLine Row.Trial (texts words.now) }
    ensures value { number (word_at (texts words.now) 2) ≡ Some (pos result) }
    ensures few { result ≤ 2 ^ 23 }
{
    number_within(0, MAX_RECORDS, text_at(words, 2)).unwrap() as u32
}

/// The number of pairs of an IN and an OUT, 1 to 16, of a `serve`. The names of pair `k`, from 0,
/// stand at the places `4 + 2 * k` and `5 + 2 * k`.
pub fn pair_count(words: &[String]) -> u32
    requires { IsLine Row.Serve (texts words.now) }
    ensures count { length words.now ≡ 4 + 2 * result }
    ensures some { 1 ≤ result }
    ensures few { result ≤ 16 }
{
    ((words.len() - 4) / 2) as u32
}
