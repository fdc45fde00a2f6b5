//! A framebuffer without locks, after Schütz et al. (2021, 2022): one 64-bit word a pixel, which
//! any number of threads lower by atomic minima, and one word from which they claim numbered
//! pieces of work. Each thread acts through a seat of its own; what all of them did is known once
//! the seats are joined, and the closed frame gives the least value plotted on each pixel.
#![tactic(auto)]

mod empty_words;
mod frame;
mod rule;
mod seat;
mod view;
mod words;

pub use empty_words::EmptyWords;
pub use frame::{Frame, MOST_BLOCKS, MOST_ENDS, MOST_PIXELS};
pub use seat::Seat;
pub use words::FrameWords;
