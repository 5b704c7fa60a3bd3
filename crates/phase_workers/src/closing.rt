//! The end of the workers' part: drawers and passes are gathered from the seats, and claims and level are closed with them.
//! No memory is taken: the lists in which they came are used again.

ghost use Rattle.std.specs.Prelude.{◌≡◌, ◌+◌, ◌<◌, ◌≤◌, [], vec_len, vec_capacity};
ghost use Rattle.std.specs.List.{AllByRecursion};
ghost use Rattle.phase_workers.specs.Gates.{tells_of, rule_of};
ghost use Rattle.phase_workers.specs.Crews.{Pairs, Worked};
ghost use Rattle.phase_workers.specs.Marked.{Home, IsPaired};
ghost use Rattle.phase_workers.specs.Seen.{ArePasses};

use crate::worker::Worker;
use definitions::Side;
use eval_cache::{CachePass, EvalCache};
use level_totals::{Finished, Level, LevelPass};
use shelf_io::Gate;
use tile_claims::{Claims, Drawer};

/// The drawers and the passes of all workers that are done; their passes of the cache join those that are there.
pub fn take_apart<'p, 's, G: Gate>(
    claims: &Claims,
    level: &Level<'p>,
    cache: &EvalCache<'s>,
    side: Side,
    gate: &G,
    mut seats: Vec<Option<Worker<'p, 's>>>,
    mut drawers: Vec<Drawer>,
    mut passes: Vec<LevelPass<'p>>,
    cached: &mut Vec<CachePass<'s>>,
) -> (Vec<Drawer>, Vec<LevelPass<'p>>)
    requires done { AllByRecursion (Home level.now.locks claims.now.id cache.now.locks (tells_of (G.rule gate.now)) (rule_of (G.rule gate.now) side)
        claims.now.tiles) seats.items }
    requires empty { (drawers.items ≡ []) × (passes.items ≡ []) }
    requires room { (vec_len seats ≤ vec_capacity drawers) × (vec_len seats ≤ vec_capacity passes)
        × (vec_len seats + vec_len cached.old ≤ vec_capacity cached.old) }
    requires cached { ArePasses cache.now.locks cached.old.items }
    ensures pairs { Pairs (IsPaired level.now.locks claims.now.id (tells_of (G.rule gate.now)) (rule_of (G.rule gate.now) side)
        claims.now.tiles) result.0.items result.1.items }
    ensures count { (vec_len result.0 ≡ vec_len seats.entry) × (vec_len result.1 ≡ vec_len seats.entry) }
    ensures cached { ArePasses cache.now.locks cached.new.items }
    ensures all { vec_len cached.new ≡ vec_len cached.old + vec_len seats.entry }
{
    while let Some(seat) = seats.pop() {
        let Some(worker) = seat else { unreachable!() };
        let Worker {
            drawer,
            pass,
            cached: own,
            room: _,
        } = worker;
        drawers.push_reserved(drawer);
        passes.push_reserved(pass);
        cached.push_reserved(own);
    }
    (drawers, passes)
}

/// Ends the claims and the level.
pub fn close_all<'p, G: Gate>(
    claims: Claims,
    level: Level<'p>,
    side: Side,
    gate: &G,
    drawers: Vec<Drawer>,
    passes: Vec<LevelPass<'p>>,
) -> Finished<'p>
    requires pairs { Pairs (IsPaired level.locks claims.id (tells_of (G.rule gate.now)) (rule_of (G.rule gate.now) side)
        claims.tiles) drawers.items passes.items }
    requires count { (0 < claims.drawers) × (vec_len drawers ≡ claims.drawers) × (vec_len passes ≡ level.passes) × (claims.drawers ≡ level.passes) }
    ensures plan { result.plan ≡ level.entry.plan }
    ensures worked { Worked (tells_of (G.rule gate.now)) (rule_of (G.rule gate.now) side) claims.tiles level.entry.passes result.log }
{
    claims.close(drawers);
    level.finish(passes)
}
