//! Tests of the gate, of the ledger of pins and of the store of versions, by their public calls alone.
//! Expected values come from the calls' contracts by hand.
#![tactic(auto)]

#[cfg(test)]
mod gates;
#[cfg(test)]
mod ledgers;
#[cfg(test)]
mod party;
#[cfg(test)]
mod sharing;
#[cfg(test)]
mod stores;
#[cfg(test)]
mod surveys;
#[cfg(test)]
mod tape;
#[cfg(test)]
mod told;
