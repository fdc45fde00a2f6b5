//! The words of the command line: which of them is refused first, and what those of a line that
//! fits say.
#![tactic(auto)]

mod fields;
mod kind;
mod reading;
mod refusing;
mod row;

pub use fields::{pair_count, records, start, text_at, workers};
pub use reading::{read_draw, read_row};
pub use row::{Row, row_of};
