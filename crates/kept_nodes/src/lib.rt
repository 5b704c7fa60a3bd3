//! The nodes that a level's next one begins with: of each live report, at each prefix that is left.
//! They are made by many threads, each its own part, and then only read, so that no one waits for them.
#![tactic(auto)]

mod kept_nodes;
mod line;
mod making;
mod next_level;
mod part;
mod rows;

pub use crate::kept_nodes::KeptNodes;

/// The most nodes that are kept of a side. A node has 56 bytes.
pub const MOST_KEPT: usize = 4_194_304;
