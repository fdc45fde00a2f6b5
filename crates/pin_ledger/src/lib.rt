//! How many pins of each version are out, counted exactly.
#![tactic(auto)]

mod pins;

pub use pins::Pins;
