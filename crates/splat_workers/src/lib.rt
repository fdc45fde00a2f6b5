//! Workers that draw one frame side by side. The kept blocks are cut into pieces of one or several.
//! Each worker claims pieces until none is left, and plots the records of the blocks of those that
//! it claimed. Whatever the number of workers, and whichever of them claims which piece, the closed
//! frame has the nearest record of each pixel.
#![tactic(auto)]

mod batch;
mod block;
mod drawing;
mod nearest;
mod piece;
mod plan;
mod worker;

pub use drawing::draw_words;
pub use nearest::nearest_words;
pub use plan::{Plan, step_for};
