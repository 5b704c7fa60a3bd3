//! Evaluated nodes that are kept for later: one cache of them, and a shared one of several shards, each behind a lock of its own.
//! A node is then one step from its parent's, where a cache still has that.
#![tactic(auto)]

mod key;
mod pass;
mod shard;
mod shared;
mod state;
mod through;

pub use key::Key;
pub use pass::CachePass;
pub use shard::ShardPlan;
pub use shared::EvalCache;
pub use state::CacheState;
pub use through::node_through;
