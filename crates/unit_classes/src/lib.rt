//! Tests of the crates of classes, edits and saved files, by their public calls alone. Expected values
//! come from arithmetic by hand.
#![tactic(auto)]

#[cfg(test)]
mod bits;
#[cfg(test)]
mod choosers;
#[cfg(test)]
mod edits;
#[cfg(test)]
mod made;
#[cfg(test)]
mod pages;
#[cfg(test)]
mod saving;
#[cfg(test)]
mod walks;
