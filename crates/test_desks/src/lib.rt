//! What the tests of whole commands share: the bytes of small surveys, desks with files, commands over
//! them, and what each has to leave. A check that does not hold answers a `Fail` that says where.
#![tactic(auto)]

mod commands;
mod comparing;
mod desks;
mod endings;
mod file_parts;
mod pictures;
mod runtime;
mod serving;
mod surveys;
mod texts;

pub use commands::{command, command_beside, ends, leaves, words};
pub use comparing::same;
pub use desks::{Call, File, Shelf, fill, holds, holds_after, plan};
pub use endings::{
    command_ended, end_is, entries_are, entries_by, finished, refused, session_ended,
};
pub use file_parts::parts;
pub use pictures::{CLASS_2, CLASS_6, ONE_PIXEL, VIEW, VIEWED, draws};
pub use runtime::Host;
pub use serving::{SERVE, SERVE_TWO, joined, replies, serves, then_file};
pub use surveys::{
    ONE, Record, append_all, append_header, append_records, gapped, patched, plain, plain_of,
};
pub use texts::{TEXT, tells};
