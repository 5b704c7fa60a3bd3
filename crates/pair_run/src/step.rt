//! One step of the walk: a level, and what its pruning leaves.
//! A step hands on the next level's frontier and live reports, and keeps nothing of its own level.

ghost use Rattle.std.specs.Prelude.{◌≡◌, ◌<◌, ◌≤◌, ◌^◌, length, IfOk, IfErr, IfSome};
ghost use Rattle.std.specs.List.{All};
ghost use Rattle.prefix_bits.specs.declared.TheConstants.{MOST_BITS};
ghost use Rattle.pair_run.specs.Failures.{end_of, HasPairCause};
ghost use Rattle.pair_run.specs.Levels.{HaveLevels};
ghost use Rattle.pair_run.specs.Places.{picked};
ghost use Rattle.pair_run.specs.Plans.{HasFewTiles};
ghost use Rattle.pair_run.specs.Ranges.{AreInRange};
ghost use Rattle.pair_run.specs.SideCaches.{HasCaches};
ghost use Rattle.pair_run.specs.Rules.{rules_of};
ghost use Rattle.frontier_walk.specs.Outcomes.{pruned};
ghost use Rattle.pair_run.specs.Steps.{StepHeard, StepTrue, StepKept, IsOutcome, IsStop};
ghost use Rattle.shelf_io.specs.Seen.{link_seen, IsTrueAndIdle};
ghost use Rattle.pair_run.specs.Talking.{Passed};
ghost use Rattle.pair_run.specs.Walks.{IsStage, EndsSo, TrulyEnds};

use crate::answers::{Answer, PairError};
use crate::level::{WalkedLevel, walk_level};
use crate::settings::WalkSettings;
use definitions::Sequence;
use frontier_walk::{Frontier, Next};
use phase_sums::{CacheHold, Caches};
use report_batch::Batch;
use shelf_io::{Gate, Link};
use std::alloc::Global;
use std::sync::Wait;
use std::thread::Threads;

/// What follows a level.
#[derive(Drop)]
pub enum Step {
    /// The walk's answer.
    Done(Answer),
    /// The next level's frontier, and the places of the reports that are live before it.
    Further(Frontier, Vec<u32>),
}

/// Walks the frontier's level and prunes it.
pub fn walk_step<'s, R: Threads + Wait + Sync, K: Link, G: Gate>(
    rt: &R,
    alloc: Global,
    link: &mut K,
    settings: &WalkSettings,
    batch: &Batch,
    frontier: Frontier,
    live: Vec<u32>,
    caches: &Caches<'s>,
    hold: &mut CacheHold<'s>,
    gate: &G,
) -> Result<Step, PairError>
    requires bits { frontier.bits ≡ settings.now.bits }
    requires cap { frontier.cap ≡ settings.now.cap }
    requires settings { AreInRange MOST_BITS settings.now }
    requires tiles { HasFewTiles settings.now (length batch.now) }
    requires levels { HaveLevels settings.now.bits batch.now }
    requires few { length batch.now < 2 ^ 27 }
    requires places { All (λ k. k < length batch.now) live.items }
    requires within { length live.items ≤ length batch.now }
    requires caches { HasCaches batch.now settings.now.workers caches.now hold.old }
    ensures caches { IfOk result (λ step. HasCaches batch.now settings.now.workers caches.now hold.new) }
    ensures kept { IfOk result (StepKept batch.now frontier) }
    ensures heard { IfOk result (StepHeard (rules_of settings.now) batch.now frontier live.items (K.talk link.old) (K.talk link.new)) }
    ensures stops { IfErr result (λ e. IfSome (end_of e) (λ end. Passed (K.talk link.old) (K.talk link.new)
        (EndsSo (rules_of settings.now) frontier (picked batch.now live.items) end))) }
    ensures truly { IfOk result (λ step. IsTrueAndIdle (link_seen K.Link link.old)
        → IsStage (rules_of settings.now) batch.now frontier (picked batch.now live.items)
        → StepTrue (rules_of settings.now) batch.now frontier (K.is_true link.new) (K.talk link.old) (K.talk link.new) step) }
    ensures partly { IfErr result (λ e. IsTrueAndIdle (link_seen K.Link link.old)
        → IsStage (rules_of settings.now) batch.now frontier (picked batch.now live.items)
        → TrulyEnds (rules_of settings.now) batch.now frontier (K.is_true link.new) (K.talk link.old) (K.talk link.new) (end_of e)) }
    ensures cause { HasPairCause (K.faults link.old) (K.faults link.new) result }
{
    let walked = walk_level(
        rt,
        alloc,
        link,
        settings,
        frontier.level(),
        frontier.candidates(),
        batch,
        &live,
        caches,
        hold,
        gate,
    )?;
    pruned_step(alloc, settings, batch, frontier, walked)
}

/// What a walked level's pruning leaves.
fn pruned_step(
    alloc: Global,
    settings: &WalkSettings,
    batch: &Batch,
    frontier: Frontier,
    walked: WalkedLevel,
) -> Result<Step, PairError>
    requires long { All (λ q. length q ≡ frontier.level) frontier.candidates }
    requires totals { length walked.totals.items ≡ length frontier.candidates }
    requires threshold { 1 ≤ settings.now.threshold }
    requires few { length batch.now < 2 ^ 27 }
    requires places { All (λ k. k < length batch.now) walked.live.items }
    requires within { length walked.live.items ≤ length batch.now }
    ensures kept { IfOk result (StepKept batch.now frontier) }
    ensures outcome { IfOk result (IsOutcome frontier batch.now walked.live.items
        (pruned frontier walked.totals.items settings.now.threshold)) }
    ensures cause { IfErr result (IsStop (pruned frontier walked.totals.items settings.now.threshold)) }
{
    let level = frontier.level();
    match frontier.prune(alloc, &walked.totals, settings.threshold)? {
        Next::Level(next) => Ok(Step::Further(next, walked.live)),
        Next::Done(heavy) => Ok(Step::Done(Answer {
            sealed: batch.len() as u32,
            passed: walked.live.len() as u32,
            levels: level,
            heavy: Sequence::from_vec(heavy),
        })),
    }
}
