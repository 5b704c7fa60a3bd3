//! The part of a tile, made through a shared cache: each node is one step from its parent's node where the cache still has that.
//! A report's parents that it has not are among the nodes kept beside it, or are reached by one way down for all of them, from the root.
#![tactic(auto)]

mod adding;
mod block;
mod filling;
mod node_room;
mod tile_room;

pub use crate::tile_room::TileRoom;
