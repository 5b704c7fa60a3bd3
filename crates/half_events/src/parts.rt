//! Makes the part of a tile through a side's cache.
//! The coins of a tile's candidates are those of their places in the whole list.

ghost use Rattle.std.specs.Prelude.{◌≡◌, ◌+◌, ◌<◌, ◌≤◌, ◌^◌, map, length, IfOk};
ghost use Rattle.std.specs.List.{All};
ghost use Rattle.definitions.specs.Field.{total_by};
ghost use Rattle.definitions.specs.Sketch.{partial_sums_from};
ghost use Rattle.tile_claims.specs.Plans.{tiles_of};
ghost use Rattle.phase_state.specs.Sums.{coins_of, nodes_of, share_at, part_sums, part_totals, IsPhasePlan};
ghost use Rattle.half_events.specs.Caches.{IsTrueCache};

use crate::cached::{CacheEntry, node_of};
use field64::Fe;
use phase_state::PhasePlan;
use prefix_bits::Prefix;
use sketch_check::{CoinKey, Sums};
use std::alloc::{AllocError, Global};
use tile_claims::Tile;

// A report's sums over candidates of which the first stands at the place `first` of the whole list.
fn report_sums(
    plan: &PhasePlan<'_>,
    cache: &[CacheEntry],
    report: u32,
    first: u32,
    candidates: &[Prefix],
) -> Sums
    requires cached { IsTrueCache plan.now.shares plan.now.side cache.now }
    requires report { report < length plan.now.shares }
    requires few { first + length candidates.now ≤ 2 ^ 20 }
    requires some { 1 ≤ plan.now.level }
    requires bits { All (λ q. length q ≡ plan.now.level) candidates.now }
    requires levels { All (λ s. plan.now.level ≤ length s.levels) plan.now.shares }
    ensures value { result ≡ partial_sums_from (coins_of plan.now.verify plan.now.level (share_at plan.now.shares report)) first
        (map (λ q. (nodes_of plan.now.side (share_at plan.now.shares report) q).d) candidates.now)
        (map (λ q. (nodes_of plan.now.side (share_at plan.now.shares report) q).e) candidates.now) }
{
    let share = &plan.shares[report as usize];
    let key = CoinKey::of(&plan.verify, &share.id);
    let mut sums = Sums::zero();
    for (place, prefix) in candidates.iter().enumerate() {
        let node = node_of(cache, plan, report, prefix);
        sums = sums.with(key.coin(plan.level, first + place as u32), node.d, node.e);
    }
    sums
}

// The total of live reports at a prefix.
fn total_at(plan: &PhasePlan<'_>, cache: &[CacheEntry], live: &[u32], prefix: &Prefix) -> Fe
    requires cached { IsTrueCache plan.now.shares plan.now.side cache.now }
    requires places { All (λ i. i < length plan.now.shares) live.now }
    requires some { 1 ≤ length prefix.now }
    requires levels { All (λ s. length prefix.now ≤ length s.levels) plan.now.shares }
    ensures value { result ≡ total_by (λ s. (nodes_of plan.now.side s prefix.now).d) (map (share_at plan.now.shares) live.now) }
{
    let mut sum = Fe::zero();
    for report in live {
        sum = sum.add(node_of(cache, plan, *report, prefix).d);
    }
    sum
}

/// What a tile adds in a phase of sketches, for each report of the tile. `AllocError` is want of memory.
pub fn sketch_part(
    alloc: Global,
    plan: &PhasePlan<'_>,
    cache: &[CacheEntry],
    tile: u32,
) -> Result<Vec<Sums>, AllocError>
    requires plan { IsPhasePlan plan.now }
    requires some { 1 ≤ plan.now.level }
    requires cached { IsTrueCache plan.now.shares plan.now.side cache.now }
    requires tile { tile < tiles_of plan.now.tiles }
    ensures part { IfOk result (λ sums. sums.items ≡ part_sums plan.now tile) }
{
    let Tile { r0, r1, c0, c1 } = plan.tiles.tile(tile);
    let live = &plan.live[r0 as usize..r1 as usize];
    let candidates = &plan.candidates[c0 as usize..c1 as usize];
    let mut sums = Vec::with_capacity(alloc, live.len())?;
    for report in live {
        sums.push(report_sums(plan, cache, *report, c0, candidates))?;
    }
    Ok(sums)
}

/// What a tile adds in a phase of totals, for each candidate of the tile. `AllocError` is want of memory.
pub fn totals_part(
    alloc: Global,
    plan: &PhasePlan<'_>,
    cache: &[CacheEntry],
    tile: u32,
) -> Result<Vec<Fe>, AllocError>
    requires plan { IsPhasePlan plan.now }
    requires some { 1 ≤ plan.now.level }
    requires cached { IsTrueCache plan.now.shares plan.now.side cache.now }
    requires tile { tile < tiles_of plan.now.tiles }
    ensures part { IfOk result (λ totals. totals.items ≡ part_totals plan.now tile) }
{
    let Tile { r0, r1, c0, c1 } = plan.tiles.tile(tile);
    let live = &plan.live[r0 as usize..r1 as usize];
    let candidates = &plan.candidates[c0 as usize..c1 as usize];
    let mut totals = Vec::with_capacity(alloc, candidates.len())?;
    for prefix in candidates {
        totals.push(total_at(plan, cache, live, prefix))?;
    }
    Ok(totals)
}
