//! The classes of a survey's records: those in its file, those after an edit, and those that are
//! picked by other means. They stand in pages, and versions share the pages in which no class differs.
#![tactic(auto)]

mod boxes;
mod chooser;
mod classes;
mod draft;
mod page;

pub use chooser::Chooser;
pub use classes::{Classes, base};
pub use draft::Draft;
pub use page::{PAGE, Page};
