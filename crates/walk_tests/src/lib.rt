//! Trials of the whole walk: workers, drills and tiles of all sizes over made shares, and threads that overlap.
//! What is found follows from the strings alone.
#![tactic(auto)]

mod pairs;
#[cfg(test)]
mod tests;
mod trial;

pub use crate::pairs::Pairs;
pub use crate::trial::{Outline, Way, outline_of, walked};
