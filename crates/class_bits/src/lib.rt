//! Classes of point records: where a class byte has its class, sets of classes, the filters that
//! read them, and class lists as users write them.
#![tactic(auto)]

mod class_byte;
mod class_list;
mod class_set;
mod filter;

pub use class_byte::{class_of, top_class, with_class};
pub use class_list::{ClassWord, read_classes};
pub use class_set::ClassSet;
pub use filter::{Filter, passes};
