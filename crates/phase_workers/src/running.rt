//! A phase run by its crew, and the phases of both sides at once.
//! Every tile is posted once, so the sums are the plain ones.

ghost use Rattle.std.specs.Prelude.{◌≡◌, ◌+◌, vec_len};
ghost use Rattle.phase_workers.specs.Crews.{IsRun};
ghost use Rattle.phase_workers.specs.Seen.{ArePasses};

use crate::closing::{close_all, take_apart};
use crate::crew::Crew;
use crate::phase::{Done, Phase};
use crate::sweeping::sweep;
use crate::working::all_work_at;
use shelf_io::Gate;
use std::sync::Wait;
use std::thread::{Threads, join};

/// Runs a phase. The workers, in threads of their own, claim tiles until none is left, ask the gate after each claim, and
/// evaluate and post what it does not leave out. Then the level is finished, and the tiles that no worker posted are posted
/// in ascending order under the number of workers.
///
/// Every tile is posted once, whatever the gate says, so the sums and totals of what is finished are the plain ones. Where
/// the gate tells its rule, the swept tiles are exactly those of the rule. The gate is told of each part that is made. The
/// passes of the cache come back, as many as there were. It waits; there is no refusal, and it takes no memory.
pub fn run_phase<'p, 's, G: Gate, R: Threads + Wait + Sync>(
    rt: &R,
    crew: Crew<'p, 's>,
    gate: &G,
) -> Phase<'p, 's>
    ensures run { IsRun crew.entry (G.rule gate.now) result.done result.finished }
    ensures passes { ArePasses crew.entry.cache result.passes.items }
    ensures all { vec_len result.passes ≡ crew.entry.workers + 1 }
{
    let Crew {
        workers,
        claims,
        level,
        cache,
        mut seats,
        drawers,
        passes,
        mut cached,
        mut room,
    } = crew;
    let plan = level.plan().copy();
    let tiles = plan.count();
    let side = plan.side;
    all_work_at(rt, side, &claims, &level, cache, gate, &mut seats);
    let (drawers, passes) = take_apart(
        &claims,
        &level,
        cache,
        side,
        gate,
        seats,
        drawers,
        passes,
        &mut cached,
    );
    let finished = close_all(claims, level, side, gate, drawers, passes);
    let Some(own) = cached.pop() else {
        unreachable!()
    };
    let (finished, swept, own) = sweep(
        rt, cache, own, gate, finished, &plan, tiles, &mut room, workers,
    );
    cached.push_reserved(own);
    finished.all_posted();
    Phase {
        done: Done { tiles, swept },
        finished,
        passes: cached,
    }
}

/// Runs the phases of both sides at once, as [`run_phase`] runs each.
pub fn run_both<'p, 's, G: Gate, R: Threads + Wait + Sync>(
    rt: &R,
    zero: Crew<'p, 's>,
    one: Crew<'p, 's>,
    gate: &G,
) -> (Phase<'p, 's>, Phase<'p, 's>)
    ensures zero { IsRun zero.entry (G.rule gate.now) result.0.done result.0.finished }
    ensures one { IsRun one.entry (G.rule gate.now) result.1.done result.1.finished }
    ensures passes { (ArePasses zero.entry.cache result.0.passes.items) × (ArePasses one.entry.cache result.1.passes.items) }
    ensures all { (vec_len result.0.passes ≡ zero.entry.workers + 1) × (vec_len result.1.passes ≡ one.entry.workers + 1) }
{
    join(
        rt,
        || run_phase(rt, zero, gate),
        || run_phase(rt, one, gate),
    )
}
