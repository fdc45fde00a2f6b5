//! Tests of `view_base` and `view_ends`: words and lists, desks in memory that fail where a test
//! says, and the desk of the system over real files and over a system that fails.
#![tactic(auto)]

#[cfg(test)]
mod host_desk;
#[cfg(test)]
mod links;
#[cfg(test)]
mod lists;
#[cfg(test)]
mod memory_desks;
#[cfg(test)]
mod scratch;
#[cfg(test)]
mod short_calls;
#[cfg(test)]
mod unsteady;
#[cfg(test)]
mod words;
