//! The lines of a session: which command a line is, and why it is none.
#![tactic(auto)]

mod command;
mod holding;
mod reading;
mod refusal;

pub use command::Command;
pub use holding::{Holding, read_holding};
pub use reading::read_command;
pub use refusal::Refusal;
