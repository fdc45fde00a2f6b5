ghost use Rattle.std.specs.Prelude.{◌≡◌};
ghost use Rattle.view_words.specs.CommandLine.{kind_at};

use crate::row::Row;

/// What a row of the table has at a place.
#[derive(Clone, Copy)]
pub(crate) enum WordKind {
    /// The command itself.
    Command,
    /// The name of a file that is read.
    ReadName,
    /// The name of a file that is written.
    WrittenName,
    /// The number of workers.
    Workers,
    /// The start of a trial.
    Start,
    /// The number of records of a trial.
    Records,
    /// The word at this place, from 0, of a view.
    ViewWord(u32),
    /// No word: the row has ended.
    NoWord,
}

/// What a row has at a place, from 0.
#[tactic(auto, unfolding(crate::specs::CommandLine::kind_at))]
pub(crate) fn kind_at(row: Row, place: usize) -> WordKind
    ensures { result ≡ kind_at row place }
{
    match row {
        Row::Draw => match place {
            0 => WordKind::Command,
            1 => WordKind::ReadName,
            2 => WordKind::WrittenName,
            3 => WordKind::Workers,
            4..=25 => WordKind::ViewWord(place as u32 - 4),
            _ => WordKind::NoWord,
        },
        Row::Info => match place {
            0 => WordKind::Command,
            1 => WordKind::ReadName,
            2 => WordKind::WrittenName,
            _ => WordKind::NoWord,
        },
        Row::Trial => match place {
            0 => WordKind::Command,
            1 => WordKind::Start,
            2 => WordKind::Records,
            3 => WordKind::Workers,
            4 => WordKind::WrittenName,
            _ => WordKind::NoWord,
        },
        Row::Serve => serve_kind(place),
    }
}

/// What the row `serve` has at a place, from 0.
#[tactic(auto, unfolding(crate::specs::CommandLine::kind_at))]
fn serve_kind(place: usize) -> WordKind
    ensures { result ≡ kind_at Row.Serve place }
{
    match place {
        0 => WordKind::Command,
        1 => WordKind::ReadName,
        2 => WordKind::Workers,
        3 => WordKind::WrittenName,
        4..=35 if place % 2 == 0 => WordKind::ReadName,
        4..=35 => WordKind::WrittenName,
        _ => WordKind::NoWord,
    }
}
