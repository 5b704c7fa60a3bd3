//! The crew of a phase: everything that its workers need, made beforehand.
//! Nothing that is done with it afterwards takes memory.

ghost use Rattle.std.specs.Prelude.{◌≡◌, ◌+◌, ◌≤◌, IfOk, vec_len};
ghost use Rattle.phase_state.specs.Sums.{IsPhasePlan};
ghost use Rattle.phase_workers.specs.Seen.{crew_of, ArePasses};

use crate::seating::seat_all;
use crate::worker::Worker;
use eval_cache::{CachePass, EvalCache};
use level_totals::{Level, LevelPass};
use phase_state::PhasePlan;
use std::alloc::{AllocError, Global};
use std::marker::Model;
use tile_claims::{Claims, Drawer};
use tile_filling::TileRoom;

/// The workers of one phase, with the claims, the level, the cache and all room that they and the sweep need.
/// Contracts see the phase's plan, the number of workers, and the locks of the cache.
#[derive(Drop)]
pub struct Crew<'p, 's> {
    pub(crate) workers: u32,
    pub(crate) claims: Claims,
    pub(crate) level: Level<'p>,
    pub(crate) cache: &'p EvalCache<'s>,
    pub(crate) seats: Vec<Option<Worker<'p, 's>>>,
    pub(crate) drawers: Vec<Drawer>,
    pub(crate) passes: Vec<LevelPass<'p>>,
    pub(crate) cached: Vec<CachePass<'s>>,
    pub(crate) room: TileRoom,
}

impl<'p, 's> Model for Crew<'p, 's> {
    ghost use Rattle.std.specs.Prelude.{◌≡◌, ◌<◌, ◌≤◌, [], vec_len, vec_capacity};
    ghost use Rattle.std.specs.List.{AllByRecursion};
    ghost use Rattle.tile_claims.specs.Plans.{tiles_of};
    ghost use Rattle.phase_state.specs.Rooms.{HasRoom};
    ghost use Rattle.phase_workers.specs.Marked.{Waiting};
    ghost use Rattle.phase_workers.specs.Seen.{CrewSeen, crew_of, ArePasses};

    ghost Value = { CrewSeen };

    ghost view = { λ c. crew_of c.level.plan c.workers c.cache.now.locks };

    ghost invariant = { λ c. (c.claims.tiles ≡ tiles_of c.level.plan.tiles) × (c.claims.drawers ≡ c.workers) × (c.level.passes ≡ c.workers)
        × (0 < c.workers) × (vec_len c.seats ≡ c.workers)
        × AllByRecursion (Waiting c.level c.claims.id c.cache.now.locks) c.seats.items
        × (c.drawers.items ≡ []) × (c.passes.items ≡ [])
        × (c.workers ≤ vec_capacity c.drawers) × (c.workers ≤ vec_capacity c.passes)
        × HasRoom c.level.plan.tiles c.room.reports c.room.candidates
        × (c.cache.now.side ≡ c.level.plan.side) × (c.cache.now.shares ≡ c.level.plan.shares)
        × ArePasses c.cache.now.locks c.cached.items × (vec_len c.cached ≡ 1) × (c.workers < vec_capacity c.cached) };
}

impl<'p, 's> Crew<'p, 's> {
    /// A crew of 1 to 64 workers for a phase, with a cache of the plan's side and shares, and one pass of that cache for each
    /// worker and one for the sweep. It takes all buffers. `AllocError` is want of memory; then nothing stands, and the
    /// passes are gone.
    pub fn new(
        alloc: Global,
        plan: PhasePlan<'p>,
        cache: &'p EvalCache<'s>,
        passes: Vec<CachePass<'s>>,
        workers: u32,
    ) -> Result<Crew<'p, 's>, AllocError>
        requires count { (1 ≤ workers) × (workers ≤ 64) }
        requires plan { IsPhasePlan plan }
        requires cache { (cache.now.side ≡ plan.side) × (cache.now.shares ≡ plan.shares) }
        requires passes { ArePasses cache.now.locks passes.items }
        requires all { vec_len passes ≡ workers + 1 }
        ensures { IfOk result (λ crew. crew ≡ crew_of plan.entry workers cache.now.locks) }
    {
        let tiles = plan.tiles;
        let room = TileRoom::new(alloc, &tiles)?;
        let (claims, mut drawers) = Claims::new(alloc, tiles.tiles(), workers)?;
        let (level, mut posts) = Level::new(alloc, plan, workers)?;
        let mut cached = passes;
        let seats = seat_all(
            alloc,
            &claims,
            &level,
            cache,
            &tiles,
            &mut drawers,
            &mut posts,
            &mut cached,
        )?;
        Ok(Crew {
            workers,
            claims,
            level,
            cache,
            seats,
            drawers,
            passes: posts,
            cached,
            room,
        })
    }
}
