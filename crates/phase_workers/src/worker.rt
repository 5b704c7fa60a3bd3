//! One worker.
//! All that it needs was made before the work begins.

use eval_cache::CachePass;
use level_totals::LevelPass;
use tile_claims::Drawer;
use tile_filling::TileRoom;

/// A worker: its drawer, its passes of the level and of the cache, and room for the part of a tile.
#[derive(Drop)]
pub struct Worker<'a, 's> {
    pub drawer: Drawer,
    pub pass: LevelPass<'a>,
    pub cached: CachePass<'s>,
    pub room: TileRoom,
}
