//! Gates beside the open one: one holds a worker or an uploader until another has come, one drills the sweep, and one counts nodes.
//! They are for trials of threads that overlap, of tiles that no worker posts, and of caches.
#![tactic(auto)]

mod drill_gate;
mod hold_gate;
mod tally_gate;

pub use crate::drill_gate::DrillGate;
pub use crate::hold_gate::{Hold, HoldGate};
pub use crate::tally_gate::TallyGate;
