//! Tests of what reads records and cuts them into blocks: the fields of a record, surveys that are
//! made of a number, the text about a survey, blocks, cameras and culled boxes. They stand in a crate
//! of their own, so that the crates that they try are proved once. Expected values come from the LAS
//! standard (LAS 1.4 R15) or from arithmetic by hand.
#![tactic(auto)]

#[cfg(test)]
mod blocks;
#[cfg(test)]
mod cameras;
#[cfg(test)]
mod culling;
#[cfg(test)]
mod fields;
#[cfg(test)]
mod half_spaces;
#[cfg(test)]
mod making;
#[cfg(test)]
mod surveys;
#[cfg(test)]
mod telling;
#[cfg(test)]
mod workers;
