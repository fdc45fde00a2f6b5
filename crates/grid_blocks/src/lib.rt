//! The records of a survey in blocks of at most 1024, each with the least box that holds its
//! records: by the cells of a grid, so that a block is small in space, or in the order of numbers.
#![tactic(auto)]

mod block;
mod blocks;
mod by_cells;
mod by_number;
mod copies;
mod grid;
mod least_box;
mod sharing;
mod sorting;

pub use block::{Block, BlockRecords};
pub use blocks::Blocks;
pub use by_cells::build;
pub use by_number::build_by_number;
