//! The core of the system under every list of events, as plain definitions, with its laws: tiles and their sums, one side
//! of a phase with its events, intakes and their logs, the system, and the fact that every event keeps.
#![tactic(auto)]

mod hand;
pub mod laws;
mod replies;

pub use crate::hand::Hand;
pub use crate::replies::Reply;
