ghost use Rattle.std.specs.Prelude.{◌≡◌};
ghost use Rattle.view_lines.specs.Command.{refusal_code};

use int_camera::CameraLimit;

/// Why a line of a session is refused.
#[derive(Clone, Copy, Debug, PartialEq, Eq)]
pub enum Refusal {
    /// The line isn't one of the commands.
    Line,
    /// This is the first number of the view's camera that is out of its range.
    Limit(CameraLimit),
    /// The view shows red, green and blue, which records of the survey's point data record format
    /// don't have.
    NoColour,
    /// The edit's new class is above the greatest class of the survey's point data record format.
    ClassRange,
    /// A version is to be held, and the session holds one already.
    AlreadyHeld,
    /// The version that is held is to be released, and the session holds none.
    NotHeld,
}

impl Refusal {
    /// The code that answers a refused line: 1 to 6 in the order of the variants.
    pub fn code(&self) -> u8
        ensures { result ≡ refusal_code self.now }
    {
        match self {
            Refusal::Line => 1,
            Refusal::Limit(_) => 2,
            Refusal::NoColour => 3,
            Refusal::ClassRange => 4,
            Refusal::AlreadyHeld => 5,
            Refusal::NotHeld => 6,
        }
    }
}
