//! What no clause says: that the calls run, and give what the calls for one seed and one prefix give.
//! By topic: seeds, and nodes.

mod nodes;
mod seeds;
