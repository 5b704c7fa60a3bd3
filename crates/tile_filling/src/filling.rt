//! Makes the parts of a tile report by report, each report's nodes through the cache.
//! Sums are one for each report; totals grow with each report.

ghost use Rattle.std.specs.Prelude.{◌≡◌, ◌≤◌, map, length, vec_capacity};
ghost use Rattle.tile_filling.specs.Blocks.{IsBlock, report_sums, report_totals};

use crate::adding::{add_values, sums_of};
use crate::block::Block;
use crate::node_room::NodeRoom;
use eval_cache::{CachePass, EvalCache};
use field64::Fe;
use idpf_eval::Node;
use sketch_check::{CoinKey, Sums};
use std::sync::Wait;

/// The sums of the block's reports over its candidates, and how many nodes were made from one that was found.
pub(crate) fn fill_sums<'s, R: Wait>(
    rt: &R,
    cache: &EvalCache<'s>,
    pass: CachePass<'s>,
    block: &Block<'_>,
    room: &mut NodeRoom,
    nodes: &mut [Node],
    drawn: &mut [Fe],
    sums: &mut Vec<Sums>,
) -> (u64, CachePass<'s>)
    requires this_cache { pass ≡ cache.now.locks }
    requires block { IsBlock block.now }
    requires cache { (cache.now.side ≡ block.now.side) × (cache.now.shares ≡ block.now.shares.now) }
    requires room { length block.now.candidates.now ≤ room.old }
    requires nodes { length nodes.old ≡ length block.now.candidates.now }
    requires drawn { length drawn.old ≡ length block.now.candidates.now }
    requires reports { length block.now.live.now ≤ vec_capacity sums.old }
    ensures this_cache { result.1 ≡ cache.now.locks }
    ensures room { room.new ≡ room.old }
    ensures nodes { length nodes.new ≡ length nodes.old }
    ensures drawn { length drawn.new ≡ length drawn.old }
    ensures reports { vec_capacity sums.new ≡ vec_capacity sums.old }
    ensures sums { sums.new.items
        ≡ report_sums block.now.side block.now.verify block.now.level block.now.first block.now.candidates.now block.now.shares.now block.now.live.now }
{
    sums.clear();
    let mut pass = pass;
    let mut found = 0u64;
    for place in block.live {
        let share = &block.shares[*place as usize];
        let (count, after) = room.nodes_of(rt, cache, pass, block, share, *place, nodes);
        pass = after;
        found = found.saturating_add(count);
        let key = CoinKey::of(&block.verify, &share.id);
        sums.push_reserved(sums_of(&key, block.level, block.first, nodes, drawn));
    }
    (found, pass)
}

/// The totals of the block's candidates over its reports, and how many nodes were made from one that was found.
pub(crate) fn fill_totals<'s, R: Wait>(
    rt: &R,
    cache: &EvalCache<'s>,
    pass: CachePass<'s>,
    block: &Block<'_>,
    room: &mut NodeRoom,
    nodes: &mut [Node],
    totals: &mut [Fe],
) -> (u64, CachePass<'s>)
    requires this_cache { pass ≡ cache.now.locks }
    requires block { IsBlock block.now }
    requires cache { (cache.now.side ≡ block.now.side) × (cache.now.shares ≡ block.now.shares.now) }
    requires room { length block.now.candidates.now ≤ room.old }
    requires nodes { length nodes.old ≡ length block.now.candidates.now }
    requires totals { totals.old ≡ map (λ q. 0) block.now.candidates.now }
    ensures this_cache { result.1 ≡ cache.now.locks }
    ensures room { room.new ≡ room.old }
    ensures nodes { length nodes.new ≡ length nodes.old }
    ensures totals { totals.new ≡ report_totals block.now.side block.now.candidates.now block.now.shares.now block.now.live.now }
{
    let mut pass = pass;
    let mut found = 0u64;
    for place in block.live {
        let share = &block.shares[*place as usize];
        let (count, after) = room.nodes_of(rt, cache, pass, block, share, *place, nodes);
        pass = after;
        found = found.saturating_add(count);
        add_values(totals, nodes);
    }
    (found, pass)
}
