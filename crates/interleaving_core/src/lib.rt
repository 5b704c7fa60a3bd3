//! The core of the system under every list of events: uploads, the seal, and one phase after another up to the walk's end.
//! Each event is exactly the definition's, so every order of them leads to the one-thread walk.
#![tactic(auto)]

mod carrying;
mod collecting;
mod event_queue;
mod events;
mod outcomes;
mod phases;
mod running;
mod sides;
mod systems;
mod walks;

pub use crate::events::Event;
pub use crate::outcomes::Outcome;
pub use crate::running::run_events;
pub use crate::systems::System;
pub use half_events::CoreSettings;
pub use intake_state::{Entry, IntakeState, Reply};
pub use phase_state::{Kind, Part, PhasePlan, PhaseState, Posted, Posting};
pub use report_batch::Batch;
