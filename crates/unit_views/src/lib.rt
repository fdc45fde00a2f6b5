//! Tests of what reads words: the words of a view, of a command line and of a session's lines. They
//! stand in a crate of their own, so that the crates that they try are proved once.
#![tactic(auto)]

#[cfg(test)]
mod command_words;
#[cfg(test)]
mod session_lines;
#[cfg(test)]
mod views;
