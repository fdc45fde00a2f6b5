ghost use Rattle.std.specs.Prelude.{◌≡◌, ◌≢◌, ℕ, ◌<◌, ◌≤◌, ◌||◌, [], length, false, Some, IfSome, IfNone};
ghost use Rattle.std.specs.Str.{bytes_eq};
ghost use Rattle.view_base.specs.Fitting.{word_at};
ghost use Rattle.view_words.specs.CommandLine.{texts, kind_at, number_within, bars, barred, is_taken, is_refused, is_whole, badword_in, drawn_view};
ghost use Rattle.view_words.specs.Parts.{IsBeforeView, refused_at};

use crate::fields::text_at;
use crate::kind::{WordKind, kind_at};
use crate::row::Row;
use view_base::{WordsOf, read_number};
use view_text::{TextFault, ViewSpec, read_view_from};

/// The greatest number of workers.
pub(crate) const MAX_WORKERS: u64 = 64;

/// The greatest number of records of a trial, 2^23.
pub(crate) const MAX_RECORDS: u64 = 8388608;

/// The place of the first word of a view in a `draw`.
const VIEW: usize = 4;

/// The number that a word is, where it is one from `least` to `greatest`.
pub(crate) fn number_within(least: u64, greatest: u64, word: &str) -> Option<u64>
    ensures { result ≡ number_within least greatest word.now }
{
    match read_number(word.as_bytes()) {
        Some(n) if i128::from(least) <= n && n <= i128::from(greatest) => Some(n as u64),
        _ => None,
    }
}

/// Whether a name that stands on a line bars the same name later there, by what the two are for:
/// `-` may be read once and written once.
fn bars(earlier: WordKind, later: WordKind, name: &str) -> bool
    ensures { result ≡ bars earlier later name.now }
{
    match earlier {
        WordKind::ReadName => match later {
            WordKind::ReadName => true,
            WordKind::WrittenName => name != "-",
            _ => false,
        },
        WordKind::WrittenName => match later {
            WordKind::ReadName => name != "-",
            WordKind::WrittenName => true,
            _ => false,
        },
        _ => false,
    }
}

/// Whether the name at one place bars the name at a later one, `at`.
fn is_barred(row: Row, words: &[String], at: usize, earlier: usize) -> bool
    requires at { at < length words.now }
    requires earlier { earlier < length words.now }
    ensures { result ≡ barred row (texts words.now) at earlier }
{
    let name = text_at(words, at);
    text_at(words, earlier) == name && bars(kind_at(row, earlier), kind_at(row, at), name)
}

/// Whether an earlier name of the line bars the name at a place.
fn is_taken(row: Row, words: &[String], at: usize) -> bool
    requires { at < length words.now }
    ensures { result ≡ is_taken row (texts words.now) at }
{
    for earlier in 0..at {
        if is_barred(row, words, at, earlier) {
            return true;
        }
    }
    false
}

/// Whether the name at a place is refused.
fn is_refused_name(row: Row, words: &[String], at: usize) -> bool
    requires { at < length words.now }
    ensures { result ≡ (bytes_eq (word_at (texts words.now) at) [] || is_taken row (texts words.now) at) }
{
    text_at(words, at).is_empty() || is_taken(row, words, at)
}

/// Whether the word at a place, which is none of a view's, is refused.
fn is_refused(row: Row, words: &[String], at: usize) -> bool
    requires at { at < length words.now }
    requires before_view { IsBeforeView row at }
    ensures { result ≡ is_refused (kind_at row at) row (texts words.now) at }
{
    let word = text_at(words, at);
    match kind_at(row, at) {
        WordKind::Command => false,
        WordKind::ReadName => is_refused_name(row, words, at),
        WordKind::WrittenName => is_refused_name(row, words, at),
        WordKind::Workers => number_within(1, MAX_WORKERS, word).is_none(),
        WordKind::Start => number_within(0, u64::MAX, word).is_none(),
        WordKind::Records => number_within(0, MAX_RECORDS, word).is_none(),
        WordKind::ViewWord(_) => unreachable!(),
        WordKind::NoWord => true,
    }
}

/// Whether so many words are all that a row needs.
fn is_whole(row: Row, count: usize) -> bool
    ensures { result ≡ is_whole row count }
{
    match row {
        Row::Draw => count == 26,
        Row::Info => count == 3,
        Row::Trial => count == 5,
        Row::Serve => count >= 6 && count % 2 == 0,
    }
}

/// The first refused word of a row among those before a place, none of which is a view's.
fn first_refused(row: Row, words: &[String], end: usize) -> Option<u32>
    requires end { end ≤ length words.now }
    requires before_view { (k : ℕ) → k < end → IsBeforeView row k }
    ensures some { IfSome result (λ at. badword_in row (texts words.now) ≡ Some at) }
    ensures none { IfNone result ((k : ℕ) → k < end → is_refused (kind_at row k) row (texts words.now) k ≡ false) }
    ensures few { IfNone result (end ≤ 36) }
{
    for at in 0..end {
        if is_refused(row, words, at) {
            return Some(at as u32);
        }
    }
    None
}

/// The view of words that begin with `draw`. `Line` names the first word that is refused, or the
/// number of words where more are needed, and `Limit` the first camera number out of its range.
pub(crate) fn view_in(words: &[String]) -> Result<ViewSpec, TextFault>
    ensures { result ≡ drawn_view (texts words.now) }
{
    if let Some(at) = first_refused(Row::Draw, words, words.len().min(VIEW)) {
        return Err(TextFault::Line { at });
    }
    if words.len() < VIEW {
        return Err(TextFault::Line {
            at: words.len() as u32,
        });
    }
    match read_view_from(WordsOf::Separate(&words[VIEW..])) {
        Ok(view) => Ok(view),
        Err(fault) => match fault {
            TextFault::Line { at } => Err(TextFault::Line {
                at: VIEW as u32 + at,
            }),
            TextFault::Limit(limit) => Err(TextFault::Limit(limit)),
        },
    }
}

/// The first refused word of a row without a view, or the number of words where more are needed.
fn badword_without_view(row: Row, words: &[String]) -> Option<u32>
    requires { row ≢ Row.Draw }
    ensures { result ≡ badword_in row (texts words.now) }
{
    if let Some(at) = first_refused(row, words, words.len()) {
        return Some(at);
    }
    if is_whole(row, words.len()) {
        None
    } else {
        Some(words.len() as u32)
    }
}

/// The first word that a row refuses, or the number of words where more are needed.
pub(crate) fn badword_in(row: Row, words: &[String]) -> Option<u32>
    ensures { result ≡ badword_in row (texts words.now) }
{
    match row {
        Row::Draw => refused_at(&view_in(words)),
        _ => badword_without_view(row, words),
    }
}

/// The refused word of what was read as a view, or `None`.
fn refused_at(read: &Result<ViewSpec, TextFault>) -> Option<u32>
    ensures { result ≡ refused_at read.now }
{
    match read {
        Ok(_) => None,
        Err(fault) => match fault {
            TextFault::Line { at } => Some(*at),
            TextFault::Limit(_) => None,
        },
    }
}
