//! A survey of any size that is made of one number, the same on every machine.
#![tactic(auto)]

mod draws;
mod making;
mod record;

pub use making::make;
