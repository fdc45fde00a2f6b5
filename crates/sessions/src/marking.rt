ghost use Rattle.std.specs.Prelude.{◌≡◌};
ghost use Rattle.sessions.specs.Talk.{last_mark};

use view_base::Version;

/// The last mark, or 0 where there is none.
pub(crate) fn last_mark(marks: &[Version]) -> Version
    ensures { result ≡ last_mark marks.now }
{
    match marks.last() {
        Some(mark) => *mark,
        None => 0,
    }
}
