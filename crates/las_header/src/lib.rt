//! The public header block of a LAS file: its fields, and the first condition on them that a file
//! does not meet.
#![tactic(auto)]

mod header;
mod number;
mod reading;

pub use header::Header;
pub use reading::{least_length, read_header};
pub use view_base::HeaderFault;
