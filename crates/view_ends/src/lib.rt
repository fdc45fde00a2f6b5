//! The outside of the program: sources and sinks of bytes, desks of files by name, and whoever
//! stands beside the workers. Each is a trait whose ghost meanings say what bytes went through it
//! and how often it failed.
#![tactic(auto)]

mod beginning;
mod beside;
mod desk;
mod failing;
mod fault;
mod files;
mod giving;
mod host_desk;
mod host_sink;
mod host_source;
mod ledger;
mod mem_desk;
mod mem_sink;
mod mem_source;
mod opened;
mod plans;
mod sink;
mod source;
mod still_desk;
mod still_sink;
mod still_source;
mod waiting;

pub use beside::{Beside, NoBeside};
pub use desk::Desk;
pub use failing::Places;
pub use fault::{EndFault, Failed};
pub use giving::give_all;
pub use host_desk::HostDesk;
pub use host_sink::HostSink;
pub use host_source::HostSource;
pub use mem_desk::MemDesk;
pub use mem_sink::MemSink;
pub use mem_source::MemSource;
pub use plans::DeskCall;
pub use sink::Sink;
pub use source::Source;
pub use still_desk::StillDesk;
pub use still_sink::StillSink;
pub use still_source::StillSource;
