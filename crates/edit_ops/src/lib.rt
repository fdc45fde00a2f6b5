//! Edits of classes: what an edit changes, and the line of text that stands for it.
#![tactic(auto)]

mod edit;
mod fault;
mod reading;
mod runs;
mod writing;

pub use edit::{Edit, applies};
pub use fault::EditFault;
pub use reading::read_edit;
pub use writing::{classes_text, edit_text};
