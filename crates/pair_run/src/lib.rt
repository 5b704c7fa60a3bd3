//! The walk of both sides over a link, level by level, each phase by crews of both sides at once.
//! A phase is known by its sums over all live reports and candidates alone.
#![tactic(auto)]

mod additions;
mod agreement;
mod answers;
mod checking;
mod collected_walk;
mod collection;
mod comparison;
mod exchange;
mod kind;
mod level;
mod level_nodes;
mod opening;
mod own_sigmas;
mod places;
mod plans;
mod settings;
mod step;
mod survival;
mod totalling;
mod walking;

pub use crate::answers::{Answer, PairError};
pub use crate::collected_walk::walk_collected;
pub use crate::collection::run_pair;
pub use crate::settings::WalkSettings;
pub use crate::walking::walk;
