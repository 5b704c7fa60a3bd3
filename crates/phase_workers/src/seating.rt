//! The seats of a crew: each worker sits at one, with a drawer, passes and room of its own.
//! All are made before the work begins.

ghost use Rattle.std.specs.Prelude.{◌≡◌, ◌+◌, [], IfOk, vec_len, vec_capacity};
ghost use Rattle.std.specs.List.{AllByRecursion};
ghost use Rattle.phase_workers.specs.Marked.{Waiting, IsFreshDrawer, IsFreshPass};
ghost use Rattle.phase_workers.specs.Seen.{ArePasses};

use crate::worker::Worker;
use eval_cache::{CachePass, EvalCache};
use level_totals::{Level, LevelPass};
use std::alloc::{AllocError, Global};
use tile_claims::{Claims, Drawer, TilePlan};
use tile_filling::TileRoom;

/// Each drawer and each pass of the level at a seat of its own, with a pass of the cache and room for a part. Their two lists
/// are left empty; one pass of the cache is left.
pub fn seat_all<'p, 's>(
    alloc: Global,
    claims: &Claims,
    level: &Level<'p>,
    cache: &EvalCache<'s>,
    tiles: &TilePlan,
    drawers: &mut Vec<Drawer>,
    passes: &mut Vec<LevelPass<'p>>,
    cached: &mut Vec<CachePass<'s>>,
) -> Result<Vec<Option<Worker<'p, 's>>>, AllocError>
    requires tiles { tiles.now ≡ level.now.plan.tiles }
    requires drawers { AllByRecursion (IsFreshDrawer claims.now.id) drawers.old.items }
    requires passes { AllByRecursion (IsFreshPass level.now.locks) passes.old.items }
    requires cached { ArePasses cache.now.locks cached.old.items }
    requires count { vec_len drawers.old ≡ vec_len passes.old }
    requires one_more { vec_len cached.old ≡ vec_len drawers.old + 1 }
    ensures seats { IfOk result (λ seats. AllByRecursion (Waiting level.now claims.now.id cache.now.locks) seats.items) }
    ensures count { IfOk result (λ seats. vec_len seats ≡ vec_len drawers.old) }
    ensures empty { IfOk result (λ seats. (drawers.new.items ≡ []) × (passes.new.items ≡ [])) }
    ensures cached { IfOk result (λ seats. ArePasses cache.now.locks cached.new.items) }
    ensures left { IfOk result (λ seats. vec_len cached.new ≡ 1) }
    ensures room { (vec_capacity drawers.new ≡ vec_capacity drawers.old) × (vec_capacity passes.new ≡ vec_capacity passes.old)
        × (vec_capacity cached.new ≡ vec_capacity cached.old) }
{
    let mut seats = Vec::with_capacity(alloc, drawers.len())?;
    while let Some(drawer) = drawers.pop() {
        let Some(pass) = passes.pop() else {
            unreachable!()
        };
        let Some(own) = cached.pop() else {
            unreachable!()
        };
        let room = TileRoom::new(alloc, tiles)?;
        seats.push_reserved(Some(Worker {
            drawer,
            pass,
            cached: own,
            room,
        }));
    }
    Ok(seats)
}
