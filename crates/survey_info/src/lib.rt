//! What a survey is, in words: the header's fields, the box that its records lie in, and how many
//! records each class has.
#![tactic(auto)]

mod summary;
mod text;

pub use summary::Summary;
pub use text::{append_line, info_text};
