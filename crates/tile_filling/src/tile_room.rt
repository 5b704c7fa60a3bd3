//! Room for the part of any tile of a plan, and for the nodes that it is made of, made once for whoever makes many.
//! A part is made here through a shared cache, and shown to the post.

ghost use Rattle.std.specs.Prelude.{◌≡◌, ◌<◌, ◌≤◌, ◌+◌, ◌-◌, ◌^◌, map, take, length, IfOk, vec_capacity};
ghost use Rattle.std.specs.List.{All};
ghost use Rattle.tile_claims.specs.Plans.{tiles_of};
ghost use Rattle.phase_state.specs.declared.kind.Kind.TheVariants.{Sketch, Totals};
ghost use Rattle.phase_state.specs.Sums.{IsPhasePlan};
ghost use Rattle.phase_state.specs.Rooms.{HasRoom, Holds, Shows};
ghost use Rattle.idpf_lanes.specs.Stands.{AreFronts};
ghost use Rattle.tile_filling.specs.Blocks.{IsBlock, report_sums, report_totals};

use crate::block::Block;
use crate::filling::{fill_sums, fill_totals};
use crate::node_room::{NodeRoom, any_node};
use eval_cache::{CachePass, EvalCache};
use field64::Fe;
use idpf_eval::Node;
use idpf_lanes::fronts_of;
use phase_state::{Kind, Part, PhasePlan};
use prefix_bits::Prefix;
use sketch_check::Sums;
use std::alloc::{AllocError, Global};
use std::marker::Model;
use std::sync::Wait;
use tile_claims::{Tile, TilePlan};

/// Room for the part of any tile of a plan. Contracts see for how many reports and candidates it is, and what was made last.
#[derive(Drop)]
pub struct TileRoom {
    sums: Vec<Sums>,
    totals: Vec<Fe>,
    coins: Vec<Fe>,
    fronts: Vec<Prefix>,
    places: Vec<usize>,
    nodes: Vec<Node>,
    room: NodeRoom,
}

impl Model for TileRoom {
    ghost use Rattle.std.specs.Prelude.{◌≡◌, ◌≤◌, vec_len, vec_capacity};
    ghost use Rattle.phase_state.specs.Rooms.{RoomSeen};

    ghost Value = { RoomSeen };

    ghost view = { λ r. record {
      reports = vec_capacity r.sums;
      candidates = vec_len r.coins;
      sums = r.sums.items;
      totals = r.totals.items;
    } };

    ghost invariant = { λ r. (vec_len r.coins ≤ vec_capacity r.totals) × (vec_len r.fronts ≡ vec_len r.coins)
        × (vec_len r.places ≡ vec_len r.coins) × (vec_len r.nodes ≡ vec_len r.coins) × (r.room ≡ vec_len r.coins) };
}

/// The most reports and the most candidates that a tile of the plan has: those of the first, and none where there are no tiles.
fn most_of(plan: &TilePlan) -> (usize, usize)
    ensures room { HasRoom plan.now result.0 result.1 }
{
    if plan.tiles() == 0 {
        return (0, 0);
    }
    let Tile { r0, r1, c0, c1 } = plan.tile(0);
    ((r1 - r0) as usize, (c1 - c0) as usize)
}

/// As many zeros as there are candidates, in a vector with room for them.
fn zeros(candidates: &[Prefix], totals: &mut Vec<Fe>)
    requires { length candidates.now ≤ vec_capacity totals.old }
    ensures zeros { totals.new.items ≡ map (λ q. 0) candidates.now }
    ensures room { vec_capacity totals.new ≡ vec_capacity totals.old }
{
    totals.clear();
    for _prefix in candidates {
        totals.push_reserved(Fe::zero());
    }
}

/// The fronts of a tile's candidates from level 2 on, and how many there are; below it none.
fn part_fronts(
    level: u16,
    candidates: &[Prefix],
    fronts: &mut [Prefix],
    places: &mut [usize],
) -> usize
    requires bits { All (λ q. length q ≡ level) candidates.now }
    requires fronts { length fronts.old ≡ length candidates.now }
    requires places { length places.old ≡ length candidates.now }
    ensures fronts { length fronts.new ≡ length candidates.now }
    ensures places { length places.new ≡ length candidates.now }
    ensures count { result ≤ length candidates.now }
    ensures parted { 2 ≤ level → AreFronts (level - 1) candidates.now (take result fronts.new) places.new }
{
    if level < 2 {
        return 0;
    }
    fronts_of(level, candidates, fronts, places)
}

/// Makes the sums or the totals of a block, and says how many nodes were made from one that was found.
fn fill_kind<'s, R: Wait>(
    rt: &R,
    cache: &EvalCache<'s>,
    pass: CachePass<'s>,
    kind: Kind,
    block: &Block<'_>,
    room: &mut NodeRoom,
    nodes: &mut [Node],
    coins: &mut [Fe],
    sums: &mut Vec<Sums>,
    totals: &mut Vec<Fe>,
) -> (u64, CachePass<'s>)
    requires this_cache { pass ≡ cache.now.locks }
    requires block { IsBlock block.now }
    requires cache { (cache.now.side ≡ block.now.side) × (cache.now.shares ≡ block.now.shares.now) }
    requires room { length block.now.candidates.now ≤ room.old }
    requires nodes { length nodes.old ≡ length block.now.candidates.now }
    requires coins { length coins.old ≡ length block.now.candidates.now }
    requires reports { length block.now.live.now ≤ vec_capacity sums.old }
    requires candidates { length block.now.candidates.now ≤ vec_capacity totals.old }
    ensures this_cache { result.1 ≡ cache.now.locks }
    ensures room { room.new ≡ room.old }
    ensures lengths { (length nodes.new ≡ length nodes.old) × (length coins.new ≡ length coins.old) }
    ensures reports { vec_capacity sums.new ≡ vec_capacity sums.old }
    ensures candidates { vec_capacity totals.new ≡ vec_capacity totals.old }
    ensures sums { kind ≡ Sketch → sums.new.items
        ≡ report_sums block.now.side block.now.verify block.now.level block.now.first block.now.candidates.now block.now.shares.now block.now.live.now }
    ensures totals { kind ≡ Totals → totals.new.items
        ≡ report_totals block.now.side block.now.candidates.now block.now.shares.now block.now.live.now }
{
    match kind {
        Kind::Sketch => fill_sums(rt, cache, pass, block, room, nodes, coins, sums),
        Kind::Totals => {
            zeros(block.candidates, totals);
            fill_totals(rt, cache, pass, block, room, nodes, totals.as_mut_slice())
        }
    }
}

/// The same over reports and candidates of a plan, with room for at least so many candidates.
fn fill_over<'s, R: Wait>(
    rt: &R,
    cache: &EvalCache<'s>,
    pass: CachePass<'s>,
    plan: &PhasePlan<'_>,
    live: &[u32],
    first: u32,
    candidates: &[Prefix],
    fronts: &mut [Prefix],
    places: &mut [usize],
    nodes: &mut [Node],
    coins: &mut [Fe],
    room: &mut NodeRoom,
    sums: &mut Vec<Sums>,
    totals: &mut Vec<Fe>,
) -> (u64, CachePass<'s>)
    requires this_cache { pass ≡ cache.now.locks }
    requires cache { (cache.now.side ≡ plan.now.side) × (cache.now.shares ≡ plan.now.shares) }
    requires few { first + length candidates.now ≤ 2 ^ 20 }
    requires levels { All (λ s. plan.now.level ≤ length s.levels) plan.now.shares }
    requires bits { All (λ q. length q ≡ plan.now.level) candidates.now }
    requires live { All (λ i. i < length plan.now.shares) live.now }
    requires coins { length candidates.now ≤ length coins.old }
    requires fronts { length fronts.old ≡ length coins.old }
    requires places { length places.old ≡ length coins.old }
    requires nodes { length nodes.old ≡ length coins.old }
    requires room { length candidates.now ≤ room.old }
    requires reports { length live.now ≤ vec_capacity sums.old }
    requires candidates { length candidates.now ≤ vec_capacity totals.old }
    ensures this_cache { result.1 ≡ cache.now.locks }
    ensures coins { length coins.new ≡ length coins.old }
    ensures fronts { length fronts.new ≡ length coins.old }
    ensures places { length places.new ≡ length coins.old }
    ensures nodes { length nodes.new ≡ length coins.old }
    ensures room { room.new ≡ room.old }
    ensures reports { vec_capacity sums.new ≡ vec_capacity sums.old }
    ensures candidates { vec_capacity totals.new ≡ vec_capacity totals.old }
    ensures sums { plan.now.kind ≡ Sketch → sums.new.items
        ≡ report_sums plan.now.side plan.now.verify plan.now.level first candidates.now plan.now.shares live.now }
    ensures totals { plan.now.kind ≡ Totals → totals.new.items ≡ report_totals plan.now.side candidates.now plan.now.shares live.now }
{
    let count = candidates.len();
    let fronts = &mut fronts[..count];
    let places = &mut places[..count];
    let made = part_fronts(plan.level, candidates, fronts, places);
    let block = Block {
        side: plan.side,
        level: plan.level,
        verify: plan.verify,
        shares: plan.shares,
        live,
        first,
        candidates,
        fronts: &fronts[..made],
        places,
    };
    let nodes = &mut nodes[..count];
    let coins = &mut coins[..count];
    fill_kind(
        rt, cache, pass, plan.kind, &block, room, nodes, coins, sums, totals,
    )
}

impl TileRoom {
    /// Room for each tile of a plan: as much as its widest tile wants. `AllocError` is want of memory.
    pub fn new(alloc: Global, plan: &TilePlan) -> Result<TileRoom, AllocError>
        ensures { IfOk result (λ room. HasRoom plan.now room.reports room.candidates) }
    {
        let (reports, width) = most_of(plan);
        Ok(TileRoom {
            sums: Vec::with_capacity(alloc, reports)?,
            totals: Vec::with_capacity(alloc, width)?,
            coins: vec![in alloc; Fe::zero(); width]?,
            fronts: vec![in alloc; Prefix::empty(); width]?,
            places: vec![in alloc; 0; width]?,
            nodes: vec![in alloc; any_node(); width]?,
            room: NodeRoom::new(alloc, width)?,
        })
    }

    /// Makes the part of a tile: each live report of the tile is evaluated at each candidate of the tile, and the coins are
    /// those of the candidates' places in the whole list.
    ///
    /// From level 2 on a report's nodes come from those of the candidates' fronts: these are looked up in the cache at once, then
    /// among the nodes that are kept beside it, and what is in neither is made by one way down from the root. Each report's nodes at
    /// the candidates are then offered to the cache in the candidates' order. How many nodes were made from one that the cache's
    /// look-up gave comes first; no clause speaks of it. It waits for its turns at the cache, and takes no memory: a node for which
    /// the cache has none is not kept.
    pub fn fill<'s, R: Wait>(
        &mut self,
        rt: &R,
        cache: &EvalCache<'s>,
        pass: CachePass<'s>,
        plan: &PhasePlan<'_>,
        tile: u32,
    ) -> (u64, CachePass<'s>)
        requires this_cache { pass ≡ cache.now.locks }
        requires cache { (cache.now.side ≡ plan.now.side) × (cache.now.shares ≡ plan.now.shares) }
        requires plan { IsPhasePlan plan.now }
        requires tile { tile < tiles_of plan.now.tiles }
        requires room { HasRoom plan.now.tiles self.old.reports self.old.candidates }
        ensures this_cache { result.1 ≡ cache.now.locks }
        ensures room { (self.new.reports ≡ self.old.reports) × (self.new.candidates ≡ self.old.candidates) }
        ensures part { Holds plan.now tile self.new }
    {
        let Tile { r0, r1, c0, c1 } = plan.tile(tile);
        let live = &plan.live[r0 as usize..r1 as usize];
        let candidates = &plan.candidates[c0 as usize..c1 as usize];
        fill_over(
            rt,
            cache,
            pass,
            plan,
            live,
            c0,
            candidates,
            &mut self.fronts,
            &mut self.places,
            &mut self.nodes,
            &mut self.coins,
            &mut self.room,
            &mut self.sums,
            &mut self.totals,
        )
    }

    /// What was made last, for a plan of that kind.
    pub fn part(&self, kind: Kind) -> Part<'_>
        ensures { Shows kind self.now result }
    {
        match kind {
            Kind::Sketch => Part::Sketch(self.sums.as_slice()),
            Kind::Totals => Part::Totals(self.totals.as_slice()),
        }
    }
}
