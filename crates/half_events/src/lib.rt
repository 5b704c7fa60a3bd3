//! One side of a phase through every event: draws, posts, the cache and the sweep, tile by tile.
//! Each event is exactly the definition's for that side; the core of the system runs both sides by it.
#![tactic(auto)]

mod cached;
mod crews;
mod halves;
mod parts;
mod settings;
mod stages;
mod steps;

pub use crate::cached::CacheEntry;
pub use crate::halves::{Half, begin_half, step_half};
pub use crate::settings::CoreSettings;
pub use crate::stages::Stage;
pub use crate::steps::Step;
pub use core_definitions::Hand;
pub use phase_state::{Kind, PhasePlan, PhaseState};
pub use report_batch::Batch;
