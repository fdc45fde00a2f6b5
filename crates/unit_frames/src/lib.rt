//! Tests of frames, of the workers that draw them and of the colours of their words. They call
//! public items alone, so no crate under test is proved again with them.
#![tactic(auto)]

#[cfg(test)]
mod colours;
#[cfg(test)]
mod drawing;
#[cfg(test)]
mod frames;
#[cfg(test)]
mod meeting;
#[cfg(test)]
mod painting;
#[cfg(test)]
mod pieces;
#[cfg(test)]
mod surveys;
#[cfg(test)]
mod workers;
