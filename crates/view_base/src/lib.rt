//! What every layer of the view server speaks of: want of memory, growing lists whose room is
//! known, points and boxes in the file's integer units, colours, the words of a line, and what is wrong
//! with a file that is no survey.
#![tactic(auto)]

mod colour;
mod cursor;
mod fault;
mod kinds;
mod listing;
mod memory;
mod place;
mod text;

pub use colour::{Colouring, Rgb};
pub use cursor::{Cursor, Form, WordKind, WordsOf};
pub use fault::{HeaderFault, SurveyFault};
pub use kinds::{DigitsWord, NumberWord};
pub use listing::{Bytes, Listing, Words};
pub use memory::OutOfMemory;
pub use place::{Box3, Point};
pub use text::{next_word, read_digits, read_number};

/// The number of edits that a state of the classes has behind it: version 0 is the file's own.
pub type Version = u64;
