//! An editing session among others: the lines of its input, what each is answered, and the entries
//! that it makes in the history of the versions.
#![tactic(auto)]

mod answering;
mod counting;
mod drawing;
mod end;
mod filter_table;
mod filtering;
mod heads;
mod hearing;
mod marking;
mod pending;
mod replies;
mod serving;
mod whole_replies;
mod world;

pub use counting::count_passing;
pub use drawing::{Scene, picture};
pub use end::{Ends, Marks, Reason, SessionEnd};
pub use heads::{HEAD, append_head};
pub use replies::{append_count, append_picture};
pub use serving::{INPUT_LIMIT, serve_session};
pub use version_store::{Entry, History, What};
pub use world::World;
