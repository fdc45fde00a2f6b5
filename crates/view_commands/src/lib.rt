//! The commands of the program, over any desk: what their words ask for, what is read and
//! written, and the status that each ends with.
#![tactic(auto)]

mod drawing;
mod finishing;
mod informing;
mod journal;
mod opening;
mod places;
mod running;
mod script;
mod seats;
mod serving;
mod side_by_side;
mod status;
mod storing;
mod summing;
mod texts;
mod told;
mod trying;

pub use drawing::draw;
pub use informing::info;
pub use running::run;
pub use status::{Status, code};
pub use told::{Ended, Told};
pub use trying::trial;
