//! Which boxes a camera can't see: a box is culled where one of the camera's half-spaces leaves it
//! out whole, and so are the blocks of a survey.
#![tactic(auto)]

mod boxes;
mod cull;
mod kept_blocks;
mod narrow;
mod wide;

pub use boxes::outside;
pub use kept_blocks::{KeptBlocks, kept};
