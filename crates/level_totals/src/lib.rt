//! A level's phase on one side, posted by many threads: its states behind a row of locks, one for each stripe of candidate blocks.
//! Each post is in the one log of its tile's stripe, and what all posted stands in the state that the level leaves.
#![tactic(auto)]

mod finished;
mod held_phase;
mod level;
mod stripes;

pub use crate::finished::Finished;
pub use crate::held_phase::{HeldPhase, StripePlan};
pub use crate::level::{Level, LevelPass};
