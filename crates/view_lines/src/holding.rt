ghost use Rattle.std.specs.Prelude.{◌≡◌, ◌∷◌, []};
ghost use Rattle.view_base.specs.Text.{words};
ghost use Rattle.view_lines.specs.Command.{holding_of};

use view_base::next_word;

/// What a line asks of the version by which a session's later lines are answered.
#[derive(Clone, Copy, Debug, PartialEq, Eq)]
pub enum Holding {
    /// That the current version is held.
    Hold,
    /// That the version that is held is released.
    Release,
}

/// What a line asks of the version that is held, if it is `hold` or `release` alone. To
/// `read_command` such a line is none of its commands. Takes no memory.
pub fn read_holding(line: &[u8]) -> Option<Holding>
    ensures { result ≡ holding_of (words line.now) }
{
    let Some((start, end)) = next_word(line, 0) else {
        return None;
    };
    match next_word(line, end) {
        Some(_) => None,
        None => holding_word(&line[start..end]),
    }
}

/// What a line of this one word asks of the version that is held.
#[tactic(auto, unfolding(crate::specs::Command::holding_of))]
fn holding_word(word: &[u8]) -> Option<Holding>
    ensures { result ≡ holding_of (word.now ∷ []) }
{
    if word == b"hold".as_slice() {
        return Some(Holding::Hold);
    }
    if word == b"release".as_slice() {
        return Some(Holding::Release);
    }
    None
}
