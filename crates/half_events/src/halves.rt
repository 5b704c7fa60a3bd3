//! One side of a phase: its workers, its cache, and what is posted.
//! Each step is the event of its name in `core_definitions`, at that side.

ghost use Rattle.std.specs.Prelude.{◌≡◌, ℕ, ◌+◌, ◌<◌, ◌≤◌, ◌^◌, length, IfOk, OnOk};
ghost use Rattle.std.specs.List.{All};
ghost use Rattle.prefix_bits.specs.declared.TheConstants.{MOST_BITS};
ghost use Rattle.definitions.specs.declared.Side.{Side};
ghost use Rattle.tile_claims.specs.Plans.{tiles_of};
ghost use Rattle.core_definitions.specs.declared.hand.Hand.TheVariants.{Holding};
ghost use Rattle.core_definitions.specs.Phase.{AreTrue, half_after, hand_at, unposted, posted_count};
ghost use Rattle.core_definitions.specs.System.{fresh_half};
ghost use Rattle.phase_state.specs.Sums.{IsPhasePlan};
ghost use Rattle.half_events.specs.Settings.{AreUsable};
ghost use Rattle.half_events.specs.Steps.{step_of};
ghost use Rattle.half_events.specs.Stages.{IsStage, phase_at};
ghost use Rattle.half_events.specs.Caches.{IsTrueCache, may_fill, filled};
ghost use Rattle.half_events.specs.Halves.{IsHalf, half_seen, log_after, hands_posted, log_posted, log_swept, IsOnly};

use crate::cached::{CacheEntry, evict, find};
use crate::crews::{abandon, all_finished, claim, free_hands, hand_of};
use crate::parts::{sketch_part, totals_part};
use crate::settings::CoreSettings;
use crate::stages::{Stage, plan_of};
use crate::steps::Step;
use core_definitions::Hand;
use definitions::Side;
use idpf_eval::eval_uncounted;
use phase_state::{Kind, Part, PhasePlan, PhaseState};
use prefix_bits::Prefix;
use std::alloc::{AllocError, Global};

/// One side of a phase. Contracts see it by `half_seen`, as the side of that name in `core_definitions`: what is added up is
/// read off the log of what is posted.
#[derive(Drop)]
pub struct Half<'a> {
    /// The side's plan.
    pub plan: PhasePlan<'a>,
    /// What is posted.
    pub state: PhaseState<'a>,
    /// The number that the next claim draws: how many were drawn so far.
    pub counter: u32,
    /// What each worker has in hand, at its number.
    pub hands: Vec<Hand>,
    /// The side's cache, the newest entry first. Each entry is what the evaluation from the root gives.
    pub cache: Vec<CacheEntry>,
}

/// A side at the beginning of a phase: nothing is drawn, held or posted, and the cache is the one given, whose entries must be
/// true. `AllocError` is want of memory, and the cache is then gone.
pub fn begin_half<'a>(
    alloc: Global,
    settings: &CoreSettings,
    stage: &Stage<'a>,
    side: Side,
    cache: Vec<CacheEntry>,
) -> Result<Half<'a>, AllocError>
    requires usable { AreUsable MOST_BITS settings.now }
    requires stage { IsStage settings.now stage.now }
    requires cached { AreTrue stage.now.batch side cache.items }
    ensures half { IfOk result (IsHalf settings.now (phase_at stage.now) side) }
    ensures fresh { IfOk result (λ half. half_seen settings.now (phase_at stage.now) side half
        ≡ fresh_half settings.now (phase_at stage.now) cache.items) }
    ensures counter { IfOk result (λ half. half.counter ≡ 0) }
{
    let plan = plan_of(settings, stage, side);
    let state = PhaseState::new(alloc, plan.copy())?;
    Ok(Half {
        plan,
        state,
        counter: 0,
        hands: free_hands(alloc, settings.workers)?,
        cache,
    })
}

// Posts a tile under a number, its part made through the cache.
fn post_tile(alloc: Global, half: &mut Half<'_>, number: u32, tile: u32) -> Result<(), AllocError>
    requires same { half.old.state.plan ≡ half.old.plan }
    requires fits { IsPhasePlan half.old.plan }
    requires some { 1 ≤ half.old.plan.level }
    requires cached { IsTrueCache half.old.plan.shares half.old.plan.side half.old.cache.items }
    requires tile { tile < tiles_of half.old.plan.tiles }
    ensures only { OnOk result (IsOnly half.old.plan half.old.counter half.old.hands.items half.old.cache.items half.new) }
    ensures log { OnOk result (half.new.state.log ≡ log_after number tile half.old.state.log) }
{
    match half.plan.kind {
        Kind::Sketch => {
            let sums = sketch_part(alloc, &half.plan, &half.cache, tile)?;
            half.state.post(number, tile, &Part::Sketch(&sums));
        }
        Kind::Totals => {
            let totals = totals_part(alloc, &half.plan, &half.cache, tile)?;
            half.state.post(number, tile, &Part::Totals(&totals));
        }
    }
    Ok(())
}

// The lowest tile that is not posted.
fn lowest_unposted(state: &PhaseState<'_>, tiles: u32) -> Option<u32>
    requires tiles { tiles ≡ tiles_of state.now.plan.tiles }
    requires once { (k : ℕ) → posted_count k state.now.log ≤ 1 }
    ensures { result ≡ unposted state.now.log 0 tiles }
{
    for tile in 0..tiles {
        if !state.posted(tile) {
            return Some(tile);
        }
    }
    None
}

// Whether a report may be evaluated into the cache at a prefix.
fn may_fill(
    plan: &PhasePlan<'_>,
    bits: u16,
    cache: &[CacheEntry],
    report: u32,
    prefix: &Prefix,
) -> bool
    ensures { result ≡ may_fill bits (length plan.now.shares) cache.now report prefix.now }
{
    if report as usize >= plan.shares.len() {
        return false;
    }
    if prefix.len() == 0 || prefix.len() > bits {
        return false;
    }
    match find(cache, report, prefix) {
        Some(_) => false,
        None => true,
    }
}

// Evaluates a report into the cache at a prefix, where it may be.
fn fill(
    alloc: Global,
    plan: &PhasePlan<'_>,
    bits: u16,
    cache: &mut Vec<CacheEntry>,
    report: u32,
    prefix: &Prefix,
) -> Result<(), AllocError>
    requires levels { All (λ s. length s.levels ≡ bits) plan.now.shares }
    ensures { OnOk result (cache.new.items ≡ filled bits plan.now.shares plan.now.side report prefix.now cache.old.items) }
{
    if may_fill(plan, bits, cache, report, prefix) {
        let node = eval_uncounted(&plan.shares[report as usize], plan.side, prefix);
        cache.insert(
            0,
            CacheEntry {
                report,
                prefix: *prefix,
                node,
            },
        )?;
    }
    Ok(())
}

// A worker posts the tile that it holds, if any.
fn post(alloc: Global, half: &mut Half<'_>, worker: u32) -> Result<(), AllocError>
    requires same { half.old.state.plan ≡ half.old.plan }
    requires fits { IsPhasePlan half.old.plan }
    requires some { 1 ≤ half.old.plan.level }
    requires cached { IsTrueCache half.old.plan.shares half.old.plan.side half.old.cache.items }
    requires held { (k : ℕ) → hand_at half.old.hands.items worker ≡ Holding k → k < tiles_of half.old.plan.tiles }
    ensures only { OnOk result (IsOnly half.old.plan half.old.counter (hands_posted worker half.old.hands.items)
        half.old.cache.items half.new) }
    ensures log { OnOk result (half.new.state.log ≡ log_posted worker half.old.hands.items half.old.state.log) }
{
    if let Hand::Holding(tile) = hand_of(&half.hands, worker) {
        half.hands[worker as usize] = Hand::Free;
        post_tile(alloc, half, worker, tile)?;
    }
    Ok(())
}

// The lowest tile that is not posted is posted under the number of the workers, where each of them has finished.
fn sweep(alloc: Global, half: &mut Half<'_>, workers: u32) -> Result<(), AllocError>
    requires same { half.old.state.plan ≡ half.old.plan }
    requires fits { IsPhasePlan half.old.plan }
    requires some { 1 ≤ half.old.plan.level }
    requires cached { IsTrueCache half.old.plan.shares half.old.plan.side half.old.cache.items }
    requires once { (k : ℕ) → posted_count k half.old.state.log ≤ 1 }
    ensures only { OnOk result (IsOnly half.old.plan half.old.counter half.old.hands.items half.old.cache.items half.new) }
    ensures log { OnOk result (half.new.state.log
        ≡ log_swept workers (tiles_of half.old.plan.tiles) half.old.hands.items half.old.state.log) }
{
    if all_finished(&half.hands) {
        let tiles = half.plan.count();
        if let Some(tile) = lowest_unposted(&half.state, tiles) {
            post_tile(alloc, half, workers, tile)?;
        }
    }
    Ok(())
}

/// What happens at one side in a phase: exactly the definition's event. An event that is not enabled where it comes changes
/// nothing, as a post by a worker that holds no tile, or a sweep while a worker has not been told that there is no further
/// tile. The stage must be that of the side's plan. `AllocError` is want of memory in a fill, a post or a sweep: nothing is
/// said of the side then, and it is to be dropped.
pub fn step_half(
    alloc: Global,
    settings: &CoreSettings,
    stage: &Stage<'_>,
    half: &mut Half<'_>,
    step: Step,
) -> Result<(), AllocError>
    requires usable { AreUsable MOST_BITS settings.now }
    requires stage { IsStage settings.now stage.now }
    requires half { IsHalf settings.now (phase_at stage.now) half.old.plan.side half.old }
    requires room { half.old.counter < 2 ^ 31 }
    ensures side { OnOk result (half.new.plan.side ≡ half.old.plan.side) }
    ensures half { OnOk result (IsHalf settings.now (phase_at stage.now) half.old.plan.side half.new) }
    ensures after { OnOk result (half_seen settings.now (phase_at stage.now) half.old.plan.side half.new
        ≡ half_after settings.now (phase_at stage.now) half.old.plan.side (step_of step)
        (half_seen settings.now (phase_at stage.now) half.old.plan.side half.old)) }
    ensures counter { OnOk result (half.new.counter ≤ half.old.counter + 1) }
{
    match step {
        Step::Claim(worker) => {
            let tiles = half.plan.count();
            half.counter = claim(&mut half.hands, half.counter, tiles, worker);
        }
        Step::Abandon(worker) => abandon(&mut half.hands, worker),
        Step::Fill(report, prefix) => {
            fill(
                alloc,
                &half.plan,
                settings.bits,
                &mut half.cache,
                report,
                &prefix,
            )?;
        }
        Step::Evict(report, prefix) => evict(&mut half.cache, report, &prefix),
        Step::Post(worker) => post(alloc, half, worker)?,
        Step::Sweep => sweep(alloc, half, settings.workers)?,
    }
    Ok(())
}
