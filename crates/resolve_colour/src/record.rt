ghost use Rattle.std.specs.Prelude.{◌≡◌, ◌<◌, length, true};
ghost use Rattle.view_meaning.specs.Picture.{can_colour, colour};
ghost use Rattle.view_meaning.specs.Survey.{record_count, format_of};

use crate::paint::{ByClass, ByIntensity, ByRgb8, ByRgb16, Paint};
use class_pages::Classes;
use las_survey::Survey;
use view_base::Colouring;

/// Red, green and blue of the record of a number by a colouring under these classes: the three
/// bytes that `colours` writes for a word that names it. Takes no memory.
#[inline]
pub fn record_colour(
    survey: &Survey,
    classes: &Classes,
    colouring: Colouring,
    number: u32,
) -> [u8; 3]
    requires can_colour { can_colour (format_of survey.now) colouring ≡ true }
    requires number { number < record_count survey.now }
    requires records { length classes.now ≡ record_count survey.now }
    ensures { result ≡ colour survey.now classes.now colouring number }
{
    match colouring {
        Colouring::Class => ByClass::paint(survey, classes, number),
        Colouring::Rgb16 => ByRgb16::paint(survey, classes, number),
        Colouring::Rgb8 => ByRgb8::paint(survey, classes, number),
        Colouring::Intensity => ByIntensity::paint(survey, classes, number),
    }
}
