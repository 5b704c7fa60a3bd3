//! One level of the walk: its check, the totals of those that passed, and the pruning.
//! It knows the levels before it by their live reports alone.

ghost use Rattle.std.specs.Prelude.{◌≡◌, ◌<◌, ◌≤◌, ◌^◌, IfOk, IfErr, length};
ghost use Rattle.frontier_walk.specs.Outcomes.{outcome_of};
ghost use Rattle.plain_walk.specs.Chosen.{chosen, AllReach};
ghost use Rattle.plain_walk.specs.Levels.{live_next, outcome_at, IsCappedBy};

use crate::live::{checked, live_count, totals};
use crate::reports::{Report, Settings};
use frontier_walk::{Frontier, Next, PruneError};
use std::alloc::Global;

/// What a level leaves.
#[derive(Drop)]
pub struct Level {
    /// The flags of the reports that are still live.
    pub alive: Vec<bool>,
    /// How many they are.
    pub passed: u32,
    /// What follows the level.
    pub next: Next,
}

/// The level of a frontier, over the live reports of a batch. `Cap` and `Memory` are those of pruning, and `Memory` is
/// also want of memory for the flags or the totals.
pub fn level_of(
    alloc: Global,
    settings: &Settings,
    frontier: &Frontier,
    batch: &[Report],
    alive: Vec<bool>,
) -> Result<Level, PruneError>
    requires flags { length alive.items ≡ length batch.now }
    requires few { length batch.now < 2 ^ 31 }
    requires levels { AllReach frontier.now.level batch.now }
    requires threshold { 1 ≤ settings.now.threshold }
    ensures flags { IfOk result (λ l. length l.alive.items ≡ length batch.now) }
    ensures passed { IfOk result (λ l. l.passed ≡ length (chosen l.alive.items batch.now)) }
    ensures live { IfOk result (λ l. chosen l.alive.items batch.now ≡ live_next settings.now (chosen alive.items batch.now) frontier.now) }
    ensures next { IfOk result (λ l. outcome_of l.next ≡ outcome_at settings.now (chosen alive.items batch.now) frontier.now) }
    ensures cause { IfErr result (λ e. IsCappedBy (outcome_at settings.now (chosen alive.items batch.now) frontier.now) e) }
{
    let level = frontier.level();
    let candidates = frontier.candidates();
    let still_alive = checked(alloc, settings, level, candidates, batch, &alive)?;
    let sums = totals(alloc, level, batch, &still_alive, candidates)?;
    let next = frontier.prune(alloc, &sums, settings.threshold)?;
    Ok(Level {
        passed: live_count(batch, &still_alive),
        alive: still_alive,
        next,
    })
}
