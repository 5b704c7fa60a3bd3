//! Room for the nodes of one report: those of the fronts, found in the cache or not, and what the way down wants.
//! A report's nodes are made here, and offered to the cache.

ghost use Rattle.std.specs.Prelude.{◌≡◌, ℕ, ◌<◌, ◌≤◌, length, map, slice_index, IfOk};
ghost use Rattle.definitions.specs.Evaluation.{node as node_of};
ghost use Rattle.kept_nodes.specs.Kept.{share_at};
ghost use Rattle.tile_filling.specs.Blocks.{IsBlock};

use crate::block::Block;
use eval_cache::{CachePass, EvalCache};
use field64::Fe;
use idpf_eval::{Node, Share};
use idpf_lanes::NodeBuffers;
use prefix_bits::Prefix;
use seed_expand::Seed;
use std::alloc::{AllocError, Global};
use std::marker::Model;
use std::sync::Wait;

/// Any node.
pub(crate) fn any_node() -> Node {
    Node {
        seed: Seed([0; 32]),
        bit: false,
        d: Fe::zero(),
        e: Fe::zero(),
    }
}

/// How many of these places have a node.
fn count_found(found: &[Option<Node>], places: &[usize]) -> u64
    requires { (k : ℕ) → k < length places.now → slice_index places.now k < length found.now }
{
    let mut count = 0u64;
    for k in 0..places.len() {
        if found[places[k]].is_some() {
            count = count.saturating_add(1);
        }
    }
    count
}

/// Makes a report's nodes at the candidates from those of the fronts: one look-up for all fronts, the kept nodes for those that the
/// look-up did not give, one way down for all that are still missing, and one step from each front. How many nodes were made from
/// one that the look-up gave comes first.
fn through_fronts<'s, R: Wait>(
    rt: &R,
    cache: &EvalCache<'s>,
    pass: CachePass<'s>,
    block: &Block<'_>,
    share: &Share,
    report: u32,
    found: &mut [Option<Node>],
    wanted: &mut [Prefix],
    parents: &mut [Node],
    buffers: &mut NodeBuffers,
    into: &mut [Node],
) -> (u64, CachePass<'s>)
    requires this_cache { pass ≡ cache.now.locks }
    requires block { IsBlock block.now }
    requires second { 2 ≤ block.now.level }
    requires side { cache.now.side ≡ block.now.side }
    requires own { share.now ≡ share_at cache.now.shares report }
    requires level { block.now.level ≤ length share.now.levels }
    requires found { length found.old ≡ length block.now.fronts.now }
    requires wanted { length wanted.old ≡ length block.now.fronts.now }
    requires parents { length parents.old ≡ length block.now.fronts.now }
    requires into { length into.old ≡ length block.now.candidates.now }
    requires room { length block.now.candidates.now ≤ buffers.old }
    ensures this_cache { result.1 ≡ cache.now.locks }
    ensures nodes { into.new ≡ map (node_of share.now block.now.side) block.now.candidates.now }
    ensures same { (length found.new ≡ length found.old) × (length wanted.new ≡ length found.old) × (length parents.new ≡ length found.old) }
    ensures room { buffers.new ≡ buffers.old }
{
    let (side, level) = (block.side, block.level);
    let pass = cache.gather(rt, pass, report, block.fronts, found);
    let count = count_found(found, block.places);
    cache.kept().put_kept(report, block.fronts, found);
    buffers.nodes_found(share, side, level - 1, block.fronts, found, wanted, parents);
    buffers.children_of(
        share,
        side,
        level,
        block.candidates,
        block.fronts,
        block.places,
        parents,
        into,
    );
    (count, pass)
}

/// The same with room for at least as many fronts as there are candidates, and below level 2 from the root.
fn nodes_within<'s, R: Wait>(
    rt: &R,
    cache: &EvalCache<'s>,
    pass: CachePass<'s>,
    block: &Block<'_>,
    share: &Share,
    report: u32,
    found: &mut [Option<Node>],
    wanted: &mut [Prefix],
    parents: &mut [Node],
    buffers: &mut NodeBuffers,
    into: &mut [Node],
) -> (u64, CachePass<'s>)
    requires this_cache { pass ≡ cache.now.locks }
    requires block { IsBlock block.now }
    requires side { cache.now.side ≡ block.now.side }
    requires own { share.now ≡ share_at cache.now.shares report }
    requires level { block.now.level ≤ length share.now.levels }
    requires found { length block.now.candidates.now ≤ length found.old }
    requires wanted { length wanted.old ≡ length found.old }
    requires parents { length parents.old ≡ length found.old }
    requires into { length into.old ≡ length block.now.candidates.now }
    requires room { length found.old ≤ buffers.old }
    ensures this_cache { result.1 ≡ cache.now.locks }
    ensures nodes { into.new ≡ map (node_of share.now block.now.side) block.now.candidates.now }
    ensures same { (length found.new ≡ length found.old) × (length wanted.new ≡ length found.old) × (length parents.new ≡ length found.old) }
    ensures room { buffers.new ≡ buffers.old }
{
    if block.level < 2 {
        buffers.nodes_at(share, block.side, block.level, block.candidates, into);
        return (0, pass);
    }
    let count = block.fronts.len();
    through_fronts(
        rt,
        cache,
        pass,
        block,
        share,
        report,
        &mut found[..count],
        &mut wanted[..count],
        &mut parents[..count],
        buffers,
        into,
    )
}

/// Offers a report's nodes at the candidates to the cache, in the candidates' order. The empty prefix is not kept.
fn offer<'s, R: Wait>(
    rt: &R,
    cache: &EvalCache<'s>,
    pass: CachePass<'s>,
    block: &Block<'_>,
    share: &Share,
    report: u32,
    nodes: &[Node],
) -> CachePass<'s>
    requires this_cache { pass ≡ cache.now.locks }
    requires block { IsBlock block.now }
    requires side { cache.now.side ≡ block.now.side }
    requires report { report < length cache.now.shares }
    requires own { share.now ≡ share_at cache.now.shares report }
    requires level { block.now.level ≤ length share.now.levels }
    requires nodes { nodes.now ≡ map (node_of share.now block.now.side) block.now.candidates.now }
    ensures this_cache { result ≡ cache.now.locks }
{
    if block.level == 0 {
        return pass;
    }
    cache.scatter(rt, pass, report, block.candidates, nodes)
}

/// Room for the nodes of a report, seen as for how many candidates it is.
#[derive(Drop)]
pub(crate) struct NodeRoom {
    found: Vec<Option<Node>>,
    wanted: Vec<Prefix>,
    parents: Vec<Node>,
    buffers: NodeBuffers,
}

impl Model for NodeRoom {
    ghost use Rattle.std.specs.Prelude.{ℕ, ◌≡◌, ◌≤◌, vec_len};

    ghost Value = { ℕ };

    ghost view = { λ r. vec_len r.found };

    ghost invariant = { λ r. (vec_len r.wanted ≡ vec_len r.found) × (vec_len r.parents ≡ vec_len r.found) × (vec_len r.found ≤ r.buffers) };
}

impl NodeRoom {
    /// Room for so many candidates. `AllocError` is want of memory.
    pub(crate) fn new(alloc: Global, most: usize) -> Result<NodeRoom, AllocError>
        ensures { IfOk result (λ r. r ≡ most) }
    {
        Ok(NodeRoom {
            found: vec![in alloc; None; most]?,
            wanted: vec![in alloc; Prefix::empty(); most]?,
            parents: vec![in alloc; any_node(); most]?,
            buffers: NodeBuffers::new(alloc, most)?,
        })
    }

    /// Makes a report's nodes at a block's candidates, and offers them to the cache. How many were made from a node that the
    /// cache gave comes first.
    pub(crate) fn nodes_of<'s, R: Wait>(
        &mut self,
        rt: &R,
        cache: &EvalCache<'s>,
        pass: CachePass<'s>,
        block: &Block<'_>,
        share: &Share,
        report: u32,
        into: &mut [Node],
    ) -> (u64, CachePass<'s>)
        requires this_cache { pass ≡ cache.now.locks }
        requires block { IsBlock block.now }
        requires side { cache.now.side ≡ block.now.side }
        requires report { report < length cache.now.shares }
        requires own { share.now ≡ share_at cache.now.shares report }
        requires level { block.now.level ≤ length share.now.levels }
        requires room { length block.now.candidates.now ≤ self.old }
        requires into { length into.old ≡ length block.now.candidates.now }
        ensures this_cache { result.1 ≡ cache.now.locks }
        ensures nodes { into.new ≡ map (node_of share.now block.now.side) block.now.candidates.now }
        ensures room { self.new ≡ self.old }
    {
        let (count, pass) = nodes_within(
            rt,
            cache,
            pass,
            block,
            share,
            report,
            &mut self.found,
            &mut self.wanted,
            &mut self.parents,
            &mut self.buffers,
            into,
        );
        let pass = offer(rt, cache, pass, block, share, report, into);
        (count, pass)
    }
}
