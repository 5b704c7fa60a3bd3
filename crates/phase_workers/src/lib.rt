//! The crew of a phase: workers that claim tiles, ask the gate, evaluate and post, and the sweep of what they left.
//! However many work, and whatever the gate says, each tile is posted once.
#![tactic(auto)]

mod asked;
mod closing;
mod crew;
mod phase;
mod running;
mod seating;
mod shared;
mod sweeping;
mod worker;
mod working;

pub use crate::crew::Crew;
pub use crate::phase::{Done, Phase};
pub use crate::running::{run_both, run_phase};
