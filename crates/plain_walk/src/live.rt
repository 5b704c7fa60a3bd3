//! The live reports of a batch, by a flag for each: their totals, and which of them pass a level.
//! A report whose flag is not set is counted nowhere.

ghost use Rattle.std.specs.Prelude.{◌≡◌, ◌<◌, ◌≤◌, ◌^◌, ◌&&◌, IfOk, true, replicate, if◌then◌else◌, map, length};
ghost use Rattle.std.specs.List.{All, filter};
ghost use Rattle.definitions.specs.Evaluation.{node};
ghost use Rattle.walk_definitions.specs.Reports.{held};
ghost use Rattle.walk_definitions.specs.Walk.{passes, own_total, total};
ghost use Rattle.plain_walk.specs.Chosen.{chosen, AllReach};

use crate::checking::passes;
use crate::reports::{Report, Settings};
use definitions::Side;
use field64::Fe;
use idpf_eval::eval_uncounted;
use prefix_bits::Prefix;
use std::alloc::{AllocError, Global};

/// The flags of a batch of which every report is live. `AllocError` is want of memory for them.
pub fn all_alive(alloc: Global, batch: &[Report]) -> Result<Vec<bool>, AllocError>
    ensures value { IfOk result (λ alive. alive.items ≡ replicate (length batch.now) true) }
{
    vec![in alloc; true; batch.len()]
}

/// A side's value of a report at a prefix, and 0 where the report is not live.
fn value_if(alive: bool, report: &Report, side: Side, prefix: &Prefix) -> Fe
    requires bits { length prefix.now ≤ length (held report.now side).levels }
    ensures value { result ≡ (if alive then (node (held report.now side) side prefix.now).d else 0) }
{
    if alive {
        eval_uncounted(report.held(side), side, prefix).d
    } else {
        Fe::zero()
    }
}

/// A side's total at a prefix, over the live reports.
fn own_total(batch: &[Report], alive: &[bool], side: Side, prefix: &Prefix) -> Fe
    requires flags { length alive.now ≡ length batch.now }
    requires levels { AllReach (length prefix.now) batch.now }
    ensures value { result ≡ own_total (chosen alive.now batch.now) side prefix.now }
{
    let mut sum = Fe::zero();
    for (k, report) in batch.iter().enumerate() {
        sum = sum.add(value_if(alive[k], report, side, prefix));
    }
    sum
}

/// Both sides' totals at each candidate, over the live reports. The candidates have no more bits than the level, which
/// all shares reach. `AllocError` is want of memory for the totals.
pub fn totals(
    alloc: Global,
    level: u16,
    batch: &[Report],
    alive: &[bool],
    candidates: &[Prefix],
) -> Result<Vec<Fe>, AllocError>
    requires flags { length alive.now ≡ length batch.now }
    requires long { All (λ q. length q ≤ level) candidates.now }
    requires levels { AllReach level batch.now }
    ensures value { IfOk result (λ sums. sums.items ≡ map (total (chosen alive.now batch.now)) candidates.now) }
{
    let mut sums = Vec::new(alloc);
    for prefix in candidates {
        let zero = own_total(batch, alive, Side::Zero, prefix);
        let one = own_total(batch, alive, Side::One, prefix);
        sums.push(zero.add(one))?;
    }
    Ok(sums)
}

/// Whether a report that may be live is so after a level.
fn still(
    alive: bool,
    settings: &Settings,
    level: u16,
    candidates: &[Prefix],
    report: &Report,
) -> bool
    requires few { length candidates.now ≤ 65536 }
    requires long { All (λ q. length q ≤ level) candidates.now }
    requires first { 1 ≤ level }
    requires last0 { level ≤ length report.now.held0.levels }
    requires last1 { level ≤ length report.now.held1.levels }
    ensures value { result ≡ (alive && passes settings.now level candidates.now report.now) }
{
    if alive {
        passes(settings, level, candidates, report)
    } else {
        false
    }
}

/// The flags after a level's check, counted from 1: of the live reports those that pass. The candidates have no more bits
/// than the level, which all shares reach. `AllocError` is want of memory for the flags.
pub fn checked(
    alloc: Global,
    settings: &Settings,
    level: u16,
    candidates: &[Prefix],
    batch: &[Report],
    alive: &[bool],
) -> Result<Vec<bool>, AllocError>
    requires flags { length alive.now ≡ length batch.now }
    requires few { length candidates.now ≤ 65536 }
    requires long { All (λ q. length q ≤ level) candidates.now }
    requires levels { AllReach level batch.now }
    requires first { 1 ≤ level }
    ensures flags { IfOk result (λ next. length next.items ≡ length batch.now) }
    ensures live { IfOk result (λ next. chosen next.items batch.now ≡ filter (passes settings.now level candidates.now) (chosen alive.now batch.now)) }
{
    let mut next = Vec::new(alloc);
    for (k, report) in batch.iter().enumerate() {
        next.push(still(alive[k], settings, level, candidates, report))?;
    }
    Ok(next)
}

/// How many reports are live.
pub fn live_count(batch: &[Report], alive: &[bool]) -> u32
    requires flags { length alive.now ≡ length batch.now }
    requires few { length batch.now < 2 ^ 31 }
    ensures value { result ≡ length (chosen alive.now batch.now) }
{
    let mut count = 0;
    for k in 0..batch.len() {
        count += u32::from(alive[k]);
    }
    count
}
