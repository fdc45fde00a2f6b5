//! Words of pixels as colours: the three bytes that show the record that each word names, taken
//! from the record's class, its RGB or its intensity.
#![tactic(auto)]

mod paint;
mod pixels;
mod record;
mod records;
mod words;

pub use las_points::can_colour;
pub use pixels::colours;
pub use record::record_colour;
pub use words::PixelWords;
