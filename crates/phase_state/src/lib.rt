//! One phase of a level on one side: what is added up, tile by tile, by whoever posts a tile first.
//! The parts of the tiles, made from the reports' shares, and the state that adds them, each tile once.
#![tactic(auto)]

mod adding;
mod filling;
mod kind;
mod marking;
mod part;
mod phase_plan;
mod posting;
mod room;
mod state;

pub use crate::kind::Kind;
pub use crate::part::Part;
pub use crate::phase_plan::{PhasePlan, PlanSeen};
pub use crate::posting::{Posted, Posting};
pub use crate::room::PartRoom;
pub use crate::state::PhaseState;
