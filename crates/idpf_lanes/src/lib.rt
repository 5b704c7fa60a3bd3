//! The nodes of many prefixes of one share at once, a depth at a time, with seeds side by side.
//! Each node is that of the evaluation at its prefix, for every list of prefixes.
#![tactic(auto)]

mod depths;
mod found_nodes;
mod fronts;
mod next_depth;
mod node_buffers;
mod way_down;

pub use crate::fronts::fronts_of;
pub use crate::node_buffers::NodeBuffers;
