//! What is kept of a level's nodes for the next one.
//! It is no part of the walk's answer: each node that is not kept is evaluated again.

ghost use Rattle.std.specs.Prelude.{◌≡◌, ◌<◌, length};
ghost use Rattle.std.specs.List.{All};
ghost use Rattle.prefix_bits.specs.declared.TheConstants.{MOST_BITS};
ghost use Rattle.pair_run.specs.Levels.{HaveLevels};
ghost use Rattle.pair_run.specs.Ranges.{AreInRange};
ghost use Rattle.pair_run.specs.SideCaches.{HasCaches};

use crate::settings::WalkSettings;
use frontier_walk::Frontier;
use phase_sums::{CacheHold, Caches};
use report_batch::Batch;
use std::alloc::Global;
use std::sync::Wait;
use std::thread::Threads;

/// Keeps beside the caches the nodes of the live reports that a frontier's level begins with, each side's made by as many threads as
/// it has workers. The caches stay those of the batch.
pub fn keep_nodes<'s, R: Threads + Wait + Sync>(
    rt: &R,
    alloc: Global,
    settings: &WalkSettings,
    batch: &Batch,
    frontier: &Frontier,
    live: &[u32],
    caches: &mut Caches<'s>,
    hold: &CacheHold<'s>,
)
    requires bits { frontier.now.bits ≡ settings.now.bits }
    requires settings { AreInRange MOST_BITS settings.now }
    requires levels { HaveLevels settings.now.bits batch.now }
    requires places { All (λ k. k < length batch.now) live.now }
    requires caches { HasCaches batch.now settings.now.workers caches.old hold.now }
    ensures caches { HasCaches batch.now settings.now.workers caches.new hold.now }
{
    let level = frontier.level();
    if level < 2 {
        return;
    }
    let candidates = frontier.candidates();
    caches.keep(rt, alloc, level, candidates, live, settings.workers);
}
