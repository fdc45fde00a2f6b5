//! The versions of a survey's classes: a store that publishes edits and pins versions, and the history
//! that it keeps of which edits were published, and which versions were pinned and given back, by whom
//! and in which order.
#![tactic(auto)]

mod ahead;
mod by_blocks;
mod costs;
mod held;
mod history;
mod indexed;
mod over;
mod pin;
mod shared;
mod store;
mod versioned;

pub use ahead::Ahead;
pub use by_blocks::{chosen_by, edited_by};
pub use costs::is_quicker_by_pages;
pub use held::Held;
pub use history::{Entry, History, What};
pub use over::SharedOver;
pub use pin::Pin;
pub use shared::{Pass, Shared};
pub use store::Store;
pub use versioned::Versioned;
