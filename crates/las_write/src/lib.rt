//! Writes a survey with other classes: the bytes of the file as they were read, and in each record
//! the class bits of its class.
#![tactic(auto)]

mod records;
mod writing;

pub use records::run_from;
pub use writing::write_survey;
