//! The words that say what a picture is of, and which records a count counts.
#![tactic(auto)]

mod fault;
mod kinds;
mod reading;
mod view_spec;

pub use fault::TextFault;
pub use reading::{read_filter, read_view, read_view_from};
pub use view_spec::ViewSpec;
