//! The frontier of the walk: the candidates of a level, and what pruning them by their totals leaves.
//! Survivors and children are those of `walk_definitions`.
#![tactic(auto)]

mod frontiers;
mod heavies;
mod outcomes;
mod pruning;

pub use crate::frontiers::Frontier;
pub use crate::heavies::Heavy;
pub use crate::outcomes::{Next, PruneError};
