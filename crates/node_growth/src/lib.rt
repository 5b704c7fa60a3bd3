//! One step down for many nodes of a share at once, with their seeds side by side: each is expanded once for both children.
//! A plan says which children are made for a list of prefixes, and which of them is whose.
#![tactic(auto)]

mod child_nodes;
mod growth;
mod plan;
mod seed_buffers;
mod step;

pub use crate::plan::plan_steps;
pub use crate::seed_buffers::SeedBuffers;
pub use crate::step::Step;
