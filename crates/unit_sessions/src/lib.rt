//! Tests of `sessions` by its public calls alone: sessions over ends in memory, and counts. Expected
//! values come from arithmetic by hand.
#![tactic(auto)]

#[cfg(test)]
mod counts;
#[cfg(test)]
mod turns;
