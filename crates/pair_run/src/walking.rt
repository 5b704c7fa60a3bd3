//! The walk of both sides over a link, level by level, until it has an answer.
//! Its answer is that of what the sides heard; on a true link it is the walk of the definitions.

ghost use Rattle.std.specs.Prelude.{◌≡◌, ◌<◌, ◌≤◌, ◌^◌, length, IfOk, IfSome};
ghost use Rattle.std.specs.List.{All};
ghost use Rattle.prefix_bits.specs.declared.TheConstants.{MOST_BITS};
ghost use Rattle.pair_run.specs.Failures.{HasPairCause};
ghost use Rattle.shelf_io.specs.Seen.{link_seen, IsTrueAndIdle};
ghost use Rattle.pair_run.specs.Keeps.{end_reached, WalkKeeps};
ghost use Rattle.pair_run.specs.Levels.{HaveLevels};
ghost use Rattle.pair_run.specs.Places.{picked};
ghost use Rattle.pair_run.specs.Plans.{HasFewTiles};
ghost use Rattle.pair_run.specs.Ranges.{AreInRange, HaveBits};
ghost use Rattle.pair_run.specs.SideCaches.{HasCaches};
ghost use Rattle.pair_run.specs.Rules.{rules_of};
ghost use Rattle.pair_run.specs.Steps.{IsAnswer};
ghost use Rattle.pair_run.specs.Talking.{Passed};
ghost use Rattle.pair_run.specs.Walks.{IsStage, EndsSo, TrulyEnds};

use crate::answers::{Answer, PairError};
use crate::level_nodes::keep_nodes;
use crate::places::all_places;
use crate::settings::WalkSettings;
use crate::step::{Step, walk_step};
use definitions::Side;
use frontier_walk::Frontier;
use gates::DrillGate;
use phase_sums::{CacheHold, Caches};
use report_batch::Batch;
use shelf_io::{Gate, Link};
use std::alloc::Global;
use std::sync::Wait;
use std::thread::Threads;

/// Walks the batch over the link: at each level both sides send, take, open, check and add. A side's sums and totals are made
/// by a crew of `workers` threads, both sides' at once, in tiles of `by_reports` by `by_candidates`; each claimed tile is asked
/// of the gate behind the drill, and what the workers leave out is swept. Each side has one cache of evaluated nodes for the whole
/// walk, of sixteen shards with `cache` nodes each; where these are fewer than twice a level's nodes, the nodes that the next level
/// begins with are kept beside it, and each side's are made by as many threads as it has workers. All else is done by the caller's
/// thread. The promise depends on none of these. It waits.
///
/// The answer has the strings that at least the threshold of reports hold, ascending, with their counts. The promise is
/// `WalkKeeps`, between what the link told before and after. On every told link the answer, and each error but `Link` and
/// `Memory`, is the end of what both sides received in this call, and the list sent grew by just its messages (`heard`).
/// `PeerMessage` names the first byte at which a side could not read a message, `Views` the first place at which the two
/// sides' sums differ, `Cap` the level whose next one would have too many candidates; for `Link` the link's count of faults
/// rose (`cause`). On a link that was true and idle the end is that of the definition's walk, an answer or `Cap` (`truly`);
/// just its messages were sent, after `Link` and `Memory` the first of them (`sends`); after an answer or `Cap` the link is
/// true and idle again (`again`); and generated reports give exactly the frequent strings (`honest`).
pub fn walk<R: Threads + Wait + Sync, K: Link, G: Gate>(
    rt: &R,
    alloc: Global,
    batch: &Batch,
    settings: &WalkSettings,
    link: &mut K,
    gate: &G,
) -> Result<Answer, PairError>
    requires settings { AreInRange MOST_BITS settings.now }
    requires levels { HaveBits settings.now.bits batch.now }
    requires few { length batch.now < 2 ^ 27 }
    requires tiles { HasFewTiles settings.now (length batch.now) }
    ensures { WalkKeeps (rules_of settings.now) batch.now (link_seen K.Link link.old) (link_seen K.Link link.new) result }
{
    let live = all_places(alloc, batch.len() as u32)?;
    let frontier = Frontier::first(alloc, settings.bits, settings.cap)?;
    let (zero, one) = (batch.shares(Side::Zero), batch.shares(Side::One));
    let (mut caches, mut hold) = Caches::new(alloc, zero, one, settings.cache, settings.workers)?;
    let gate = drill(settings, gate);
    walk_from(
        rt,
        alloc,
        link,
        settings,
        batch,
        &mut caches,
        &mut hold,
        frontier,
        live,
        &gate,
    )
}

/// The gate of a walk: the one that is given, behind the drill of the settings.
fn drill<'g, G: Gate>(settings: &WalkSettings, gate: &'g G) -> DrillGate<'g, G>
    ensures drilled { result.n ≡ settings.now.drill }
    ensures inner { result.inner.now ≡ gate.now }
{
    DrillGate {
        n: settings.drill,
        inner: gate,
    }
}

/// The walk from a frontier's level on.
fn walk_from<'s, R: Threads + Wait + Sync, K: Link, G: Gate>(
    rt: &R,
    alloc: Global,
    link: &mut K,
    settings: &WalkSettings,
    batch: &Batch,
    caches: &mut Caches<'s>,
    hold: &mut CacheHold<'s>,
    frontier: Frontier,
    live: Vec<u32>,
    gate: &G,
) -> Result<Answer, PairError>
    requires bits { frontier.bits ≡ settings.now.bits }
    requires cap { frontier.cap ≡ settings.now.cap }
    requires settings { AreInRange MOST_BITS settings.now }
    requires tiles { HasFewTiles settings.now (length batch.now) }
    requires levels { HaveLevels settings.now.bits batch.now }
    requires few { length batch.now < 2 ^ 27 }
    requires places { All (λ k. k < length batch.now) live.items }
    requires within { length live.items ≤ length batch.now }
    requires caches { HasCaches batch.now settings.now.workers caches.old hold.old }
    ensures answer { IfOk result (IsAnswer frontier batch.now) }
    ensures heard { IfSome (end_reached result) (λ end. Passed (K.talk link.old) (K.talk link.new)
        (EndsSo (rules_of settings.now) frontier (picked batch.now live.items) end)) }
    ensures truly { IsTrueAndIdle (link_seen K.Link link.old)
        → IsStage (rules_of settings.now) batch.now frontier (picked batch.now live.items)
        → TrulyEnds (rules_of settings.now) batch.now frontier (K.is_true link.new) (K.talk link.old) (K.talk link.new) (end_reached result) }
    ensures cause { HasPairCause (K.faults link.old) (K.faults link.new) result }
{
    match walk_step(
        rt, alloc, link, settings, batch, frontier, live, caches, hold, gate,
    )? {
        Step::Done(answer) => Ok(answer),
        Step::Further(next, passed) => {
            keep_nodes(rt, alloc, settings, batch, &next, &passed, caches, hold);
            walk_from(
                rt, alloc, link, settings, batch, caches, hold, next, passed, gate,
            )
        }
    }
}
