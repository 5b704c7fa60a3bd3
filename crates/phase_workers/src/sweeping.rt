//! The sweep: each tile that no worker posted is posted, under the number of workers.
//! It goes over the tiles in ascending order.

ghost use Rattle.std.specs.Prelude.{◌≡◌, ◌<◌};
ghost use Rattle.tile_claims.specs.Plans.{tiles_of};
ghost use Rattle.phase_state.specs.Sums.{IsPhasePlan};
ghost use Rattle.phase_state.specs.Logs.{IsPosted};
ghost use Rattle.phase_state.specs.Rooms.{HasRoom};
ghost use Rattle.phase_workers.specs.Crews.{Swept, added_by};

use eval_cache::{CachePass, EvalCache};
use level_totals::Finished;
use phase_state::{PhasePlan, Posted};
use shelf_io::Gate;
use std::sync::Wait;
use tile_filling::TileRoom;

/// How many tiles the post added.
fn added(posted: Posted) -> u32
    ensures { result ≡ added_by posted }
{
    match posted {
        Posted::Added => 1,
        Posted::Repeat => 0,
    }
}

/// Posts the tile under that number, where it is not posted. The part of a tile that is posted is not made again. The gate is
/// told of each part that is made.
fn post_missing<'a, 's, G: Gate, R: Wait>(
    rt: &R,
    cache: &EvalCache<'s>,
    pass: CachePass<'s>,
    gate: &G,
    finished: &mut Finished<'a>,
    plan: &PhasePlan<'a>,
    tile: u32,
    room: &mut TileRoom,
    number: u32,
) -> (Posted, CachePass<'s>)
    requires this_cache { pass ≡ cache.now.locks }
    requires cache { (cache.now.side ≡ plan.now.side) × (cache.now.shares ≡ plan.now.shares) }
    requires same { finished.old.plan ≡ plan.now }
    requires plan { IsPhasePlan plan.now }
    requires tile { tile < tiles_of plan.now.tiles }
    requires room { HasRoom plan.now.tiles room.old.reports room.old.candidates }
    ensures plan { finished.new.plan ≡ finished.old.plan }
    ensures room { HasRoom plan.now.tiles room.new.reports room.new.candidates }
    ensures this_cache { result.1 ≡ cache.now.locks }
    ensures log { IsPosted result.0 number tile finished.old.log finished.new.log }
{
    if finished.posted(tile) {
        return (Posted::Repeat, pass);
    }
    let (nodes, pass) = room.fill(rt, cache, pass, plan, tile);
    gate.found(plan.side, number, tile, nodes);
    let posted = finished.post(number, tile, &room.part(plan.kind));
    (posted, pass)
}

/// Posts each tile that is not posted, under that number, and answers how many these were.
pub fn sweep<'a, 's, G: Gate, R: Wait>(
    rt: &R,
    cache: &EvalCache<'s>,
    pass: CachePass<'s>,
    gate: &G,
    finished: Finished<'a>,
    plan: &PhasePlan<'a>,
    tiles: u32,
    room: &mut TileRoom,
    number: u32,
) -> (Finished<'a>, u32, CachePass<'s>)
    requires this_cache { pass ≡ cache.now.locks }
    requires cache { (cache.now.side ≡ plan.now.side) × (cache.now.shares ≡ plan.now.shares) }
    requires same { finished.plan ≡ plan.now }
    requires plan { IsPhasePlan plan.now }
    requires tiles { tiles ≡ tiles_of plan.now.tiles }
    requires room { HasRoom plan.now.tiles room.old.reports room.old.candidates }
    ensures plan { result.0.plan ≡ finished.entry.plan }
    ensures swept { Swept number tiles result.1 finished.entry.log result.0.log }
    ensures this_cache { result.2 ≡ cache.now.locks }
{
    let mut finished = finished;
    let mut pass = pass;
    let mut swept = 0;
    for tile in 0..tiles {
        let (posted, after) = post_missing(
            rt,
            cache,
            pass,
            gate,
            &mut finished,
            plan,
            tile,
            room,
            number,
        );
        pass = after;
        swept += added(posted);
    }
    (finished, swept, pass)
}
