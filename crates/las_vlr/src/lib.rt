//! The variable length records of a LAS file and its extended ones: where each begins and how long
//! it is, or the first that does not fit its file.
#![tactic(auto)]

mod evlrs;
mod place;
mod vlrs;

pub use evlrs::{EvlrFault, walk_evlrs};
pub use place::{VlrList, VlrPlace};
pub use vlrs::{VlrFault, walk_vlrs};
