ghost use Rattle.std.specs.Prelude.{◌≡◌};
ghost use Rattle.std.specs.Str.{bytes_eq};
ghost use Rattle.view_base.specs.Fitting.{word_at};
ghost use Rattle.view_words.specs.CommandLine.{texts, command, all_rows, row_in};

/// A row of the table of command lines.
#[derive(Clone, Copy, Debug, PartialEq, Eq)]
pub enum Row {
    /// `draw SURVEY OUT WORKERS` and the 22 words of a view.
    Draw,
    /// `info SURVEY OUT`.
    Info,
    /// `trial START N WORKERS OUT`.
    Trial,
    /// `serve SURVEY WORKERS JOURNAL IN1 OUT1 ..`, with 1 to 16 pairs of an IN and an OUT.
    Serve,
}

/// The first word, or an empty text where there is none.
fn first_word(words: &[String]) -> &str
    ensures { result.now ≡ word_at (texts words.now) 0 }
{
    match words.first() {
        Some(word) => word.as_str(),
        None => "",
    }
}

/// Whether the first word is the command of a row.
pub(crate) fn begins(row: Row, words: &[String]) -> bool
    ensures { result ≡ bytes_eq (word_at (texts words.now) 0) (command row) }
{
    let word = first_word(words);
    match row {
        Row::Draw => word == "draw",
        Row::Info => word == "info",
        Row::Trial => word == "trial",
        Row::Serve => word == "serve",
    }
}

/// The row whose command is the first word, or `None` where that is no command. Takes no memory.
pub fn row_of(words: &[String]) -> Option<Row>
    ensures { result ≡ row_in all_rows (texts words.now) }
{
    if begins(Row::Draw, words) {
        Some(Row::Draw)
    } else if begins(Row::Info, words) {
        Some(Row::Info)
    } else if begins(Row::Trial, words) {
        Some(Row::Trial)
    } else if begins(Row::Serve, words) {
        Some(Row::Serve)
    } else {
        None
    }
}
