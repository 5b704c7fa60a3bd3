//! The walk over a batch on one thread, plain and slow: its contract is the definition.
//! It is the yardstick of every faster body, and is called by tests alone.
#![tactic(auto)]

mod answers;
mod checking;
mod levels;
mod live;
mod reports;
mod walking;

pub use crate::answers::Answer;
pub use crate::reports::{Report, Settings};
pub use crate::walking::walk;
