//! Trials of the core over lists of events: lists drawn from a seed, and the one-thread walk that each must lead to.
//! What the lists are made of is known by hand, so the walk's batch does not come from the core.
#![tactic(auto)]

mod draws;
mod lists;
mod shares;
#[cfg(test)]
mod tests;
mod trials;
mod walks;

pub use crate::lists::{Drawn, draw_list};
pub use crate::trials::{Cut, settings_of, try_events};
pub use crate::walks::leads_to;
