//! A gate before one value that many threads change in turns. Each change is one entry of the
//! history that the value stores. The gate knows that there is one history for all, that what each
//! caller has seen is a beginning of it, and that the entries of each caller stand in it once, in
//! the order in which the caller made them.
#![tactic(auto)]

mod gate;
mod pass;
mod replayed;
mod rule;
mod turns;
mod view;

pub use gate::Gate;
pub use pass::{Pass, Turn};
pub use replayed::Replayed;
