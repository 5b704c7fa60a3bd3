//! The work of one worker: it claims until there is no tile left, asks the gate, evaluates through the cache and posts.
//! A tile that the gate leaves out is left to the sweep.

ghost use Rattle.std.specs.Prelude.{◌≡◌, ℕ, ◌<◌, Bool, true, false, length, All, MatchBool, vec_len};
ghost use Rattle.std.specs.List.{AllByRecursion};
ghost use Rattle.lock_row.specs.Rows.{locks_of};
ghost use Rattle.tile_claims.specs.Plans.{tiles_of};
ghost use Rattle.core_definitions.specs.Phase.{Posting as Entry};
ghost use Rattle.phase_state.specs.Logs.{posts};
ghost use Rattle.phase_state.specs.Rooms.{HasRoom};
ghost use Rattle.level_totals.specs.Levels.{number_of, seen_of, own_of, Has};
ghost use Rattle.phase_workers.specs.Gates.{tells_of, rule_of};
ghost use Rattle.phase_workers.specs.Crews.{Did, IsLast};
ghost use Rattle.phase_workers.specs.Marked.{Ready, IsDone, Waiting, Home};

use crate::asked::{Asked, AtGate};
use crate::shared::Shared;
use crate::worker::Worker;
use definitions::Side;
use eval_cache::{CachePass, EvalCache};
use level_totals::{Level, LevelPass};
use seats::{Site, serve_all};
use shelf_io::{Gate, Say};
use std::sync::Wait;
use std::thread::Threads;
use tile_claims::{Claims, Drawer};
use tile_filling::TileRoom;

/// Makes the part of a tile, tells the gate, and posts it.
fn carry_out<'a, 's, G: Asked, R: Wait>(
    rt: &R,
    level: &Level<'a>,
    cache: &EvalCache<'s>,
    gate: &G,
    pass: LevelPass<'a>,
    cached: CachePass<'s>,
    room: &mut TileRoom,
    number: u32,
    tile: u32,
) -> (LevelPass<'a>, CachePass<'s>)
    requires cache { (cache.now.side ≡ level.now.plan.side) × (cache.now.shares ≡ level.now.plan.shares) }
    requires cached { cached ≡ cache.now.locks }
    requires mine { locks_of pass ≡ level.now.locks }
    requires tile { tile < tiles_of level.now.plan.tiles }
    requires room { HasRoom level.now.plan.tiles room.old.reports room.old.candidates }
    ensures cached { result.1 ≡ cache.now.locks }
    ensures mine { locks_of result.0 ≡ level.now.locks }
    ensures number { number_of result.0 ≡ number_of pass.entry }
    ensures room { (room.new.reports ≡ room.old.reports) × (room.new.candidates ≡ room.old.candidates) }
    ensures seen { Has (seen_of pass.entry) (seen_of result.0) }
    ensures there { 0 < posts tile (seen_of result.0) }
    ensures kept { (rule : ℕ → Bool) → rule tile ≡ false → AllByRecursion (λ (e : Entry). rule e.tile ≡ false) (own_of pass.entry)
        → AllByRecursion (λ (e : Entry). rule e.tile ≡ false) (own_of result.0) }
{
    let plan = level.plan();
    let (nodes, cached) = room.fill(rt, cache, cached, plan, tile);
    gate.found(number, tile, nodes);
    let (_, after) = level.post(rt, pass, tile, &room.part(plan.kind));
    (after, cached)
}

/// One claimed tile: asks the gate, and carries it out where the gate says so.
fn serve<'t, 'a, 's, G: Asked, R: Wait>(
    rt: &R,
    shared: &Shared<'t, 'a, 's, G>,
    pass: LevelPass<'a>,
    cached: CachePass<'s>,
    room: &mut TileRoom,
    number: u32,
    tile: u32,
) -> (LevelPass<'a>, CachePass<'s>)
    requires cached { cached ≡ shared.now.cache.now.locks }
    requires mine { locks_of pass ≡ shared.now.level.now.locks }
    requires tile { tile < shared.now.claims.now.tiles }
    requires room { HasRoom shared.now.level.now.plan.tiles room.old.reports room.old.candidates }
    ensures cached { result.1 ≡ shared.now.cache.now.locks }
    ensures mine { locks_of result.0 ≡ shared.now.level.now.locks }
    ensures number { number_of result.0 ≡ number_of pass.entry }
    ensures room { (room.new.reports ≡ room.old.reports) × (room.new.candidates ≡ room.old.candidates) }
    ensures seen { Has (seen_of pass.entry) (seen_of result.0) }
    ensures went { G.tells shared.now.gate.now ≡ true → G.rule shared.now.gate.now tile ≡ false → 0 < posts tile (seen_of result.0) }
    ensures kept { G.tells shared.now.gate.now ≡ true
        → AllByRecursion (λ (e : Entry). G.rule shared.now.gate.now e.tile ≡ false) (own_of pass.entry)
        → AllByRecursion (λ (e : Entry). G.rule shared.now.gate.now e.tile ≡ false) (own_of result.0) }
{
    match shared.gate.ask(number, tile) {
        Say::Abandon => (pass, cached),
        Say::Go => carry_out(
            rt,
            shared.level,
            shared.cache,
            shared.gate,
            pass,
            cached,
            room,
            number,
            tile,
        ),
    }
}

/// Claims once, and serves what came: whether a tile came.
fn once<'t, 'a, 's, G: Asked, R: Wait>(
    rt: &R,
    shared: &Shared<'t, 'a, 's, G>,
    drawer: &mut Drawer,
    pass: LevelPass<'a>,
    cached: CachePass<'s>,
    room: &mut TileRoom,
) -> (bool, LevelPass<'a>, CachePass<'s>)
    requires cached { cached ≡ shared.now.cache.now.locks }
    requires mine { (locks_of pass ≡ shared.now.level.now.locks) × (drawer.old.claims ≡ shared.now.claims.now.id) × (drawer.old.had_none ≡ false) }
    requires room { HasRoom shared.now.level.now.plan.tiles room.old.reports room.old.candidates }
    requires did { Did (G.tells shared.now.gate.now) (G.rule shared.now.gate.now) shared.now.claims.now.tiles drawer.old.drawn (seen_of pass) (own_of pass) }
    ensures cached { result.2 ≡ shared.now.cache.now.locks }
    ensures mine { (locks_of result.1 ≡ shared.now.level.now.locks) × (drawer.new.claims ≡ shared.now.claims.now.id) }
    ensures room { (room.new.reports ≡ room.old.reports) × (room.new.candidates ≡ room.old.candidates) }
    ensures done { MatchBool result.0 (drawer.new.had_none ≡ false) (IsLast shared.now.claims.now.tiles drawer.new.drawn) }
    ensures did { Did (G.tells shared.now.gate.now) (G.rule shared.now.gate.now) shared.now.claims.now.tiles drawer.new.drawn
        (seen_of result.1) (own_of result.1) }
{
    let number = drawer.number();
    let Some(tile) = shared.claims.claim(drawer) else {
        return (false, pass, cached);
    };
    let (pass, cached) = serve(rt, shared, pass, cached, room, number, tile);
    (true, pass, cached)
}

/// Claims until there is no more.
fn work<'t, 'a, 's, G: Asked, R: Wait>(
    rt: &R,
    shared: &Shared<'t, 'a, 's, G>,
    worker: Worker<'a, 's>,
) -> Worker<'a, 's>
    requires ready { Ready shared.now.level.now shared.now.claims.now.id shared.now.cache.now.locks worker }
    ensures done { IsDone shared.now.level.now.locks shared.now.claims.now.id shared.now.cache.now.locks (G.tells shared.now.gate.now) (G.rule shared.now.gate.now)
        shared.now.claims.now.tiles result }
{
    let Worker {
        mut drawer,
        mut pass,
        mut cached,
        mut room,
    } = worker;
    for _ in rt.forever() {
        let (more, after, own) = once(rt, shared, &mut drawer, pass, cached, &mut room);
        if !more {
            return Worker {
                drawer,
                pass: after,
                cached: own,
                room,
            };
        }
        pass = after;
        cached = own;
    }
    unreachable!()
}

impl<'t, 'a, 's, G: Asked> Site<Option<Worker<'a, 's>>> for Shared<'t, 'a, 's, G> {
    ghost ready = { λ shared seat. Waiting shared.level.now shared.claims.now.id shared.cache.now.locks seat };

    ghost done = { λ shared old new. Home shared.level.now.locks shared.claims.now.id shared.cache.now.locks (G.tells shared.gate.now) (G.rule shared.gate.now)
        shared.claims.now.tiles new };

    fn serve<R: Wait>(&self, rt: &R, seat: &mut Option<Worker<'a, 's>>) {
        let Some(worker) = seat.take() else {
            unreachable!()
        };
        *seat = Some(work(rt, self, worker));
    }
}

/// All work at once, in threads of their own.
fn all_work<'t, 'a, 's, G: Asked + Sync, R: Threads + Wait + Sync>(
    rt: &R,
    shared: &Shared<'t, 'a, 's, G>,
    seats: &mut [Option<Worker<'a, 's>>],
)
    requires some { 0 < length seats.old }
    requires ready { All (Waiting shared.now.level.now shared.now.claims.now.id shared.now.cache.now.locks) seats.old }
    ensures done { All (Home shared.now.level.now.locks shared.now.claims.now.id shared.now.cache.now.locks (G.tells shared.now.gate.now) (G.rule shared.now.gate.now)
        shared.now.claims.now.tiles) seats.new }
{
    serve_all(rt, shared, seats);
}

/// All work at once, with one side's gate, at the seats of a list.
pub fn all_work_at<'a, 's, G: Gate, R: Threads + Wait + Sync>(
    rt: &R,
    side: Side,
    claims: &Claims,
    level: &Level<'a>,
    cache: &EvalCache<'s>,
    gate: &G,
    seats: &mut Vec<Option<Worker<'a, 's>>>,
)
    requires plan { claims.now.tiles ≡ tiles_of level.now.plan.tiles }
    requires cache { (cache.now.side ≡ level.now.plan.side) × (cache.now.shares ≡ level.now.plan.shares) }
    requires some { 0 < vec_len seats.old }
    requires ready { AllByRecursion (Waiting level.now claims.now.id cache.now.locks) seats.old.items }
    ensures done { AllByRecursion (Home level.now.locks claims.now.id cache.now.locks (tells_of (G.rule gate.now)) (rule_of (G.rule gate.now) side)
        claims.now.tiles) seats.new.items }
    ensures count { vec_len seats.new ≡ vec_len seats.old }
{
    let asked = AtGate { side, gate };
    let shared = Shared {
        claims,
        level,
        cache,
        gate: &asked,
    };
    all_work(rt, &shared, seats.as_mut_slice());
}
