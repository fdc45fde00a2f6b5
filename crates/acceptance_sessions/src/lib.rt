//! Tests of whole commands: calls that fail and want of memory at an end, sessions of `serve` beside each
//! other, workers of one picture, and sessions over ends of their own. Expected bytes come from arithmetic
//! by hand.
#![tactic(auto)]

#[cfg(test)]
mod arriving;
#[cfg(test)]
mod failing;
#[cfg(test)]
mod made;
#[cfg(test)]
mod pairs;
#[cfg(test)]
mod scarce;
#[cfg(test)]
mod short;
#[cfg(test)]
mod waiting;
#[cfg(test)]
mod worlds;
