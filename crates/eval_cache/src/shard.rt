//! One shard of a shared cache, the value behind its lock: a cache that has entries of its own reports alone.
//! Its plan stays, and it keeps no log.

ghost use Rattle.std.specs.Prelude.{◌≡◌, ◌<◌, ◌≤◌, ◌%◌, [], length, map, IfOk, IfSome};
ghost use Rattle.std.specs.List.{range_with_len};
ghost use Rattle.kept_nodes.specs.Kept.{node_at, share_at};
ghost use Rattle.eval_cache.specs.Shards.{plan_of, planned, AreFound, AreFor};

use crate::state::CacheState;
use idpf_eval::{Node, Share};
use prefix_bits::{Prefix, Side};
use std::alloc::{AllocError, Global};
use std::collections::LinkedList;
use std::marker::Model;
use turn_lock::Held;

/// A cache of the reports whose places are `number` modulo `count`.
#[derive(Drop)]
pub(crate) struct Shard<'a> {
    state: CacheState<'a>,
    number: u32,
    count: u32,
}

impl<'a> Model for Shard<'a> {
    ghost use Rattle.eval_cache.specs.Shards.{ShardSeen, AreOfShard};

    ghost Value = { ShardSeen };

    ghost view = { λ s. record { state = s.state; number = s.number; count = s.count } };

    ghost invariant = { λ s. AreOfShard s.number s.count s.state.entries };
}

/// What stays the same of a shard: the side, its shares, how many entries it may have, its number and how many shards there are.
/// No value of it is made: proofs alone see it.
pub struct ShardPlan {
    pub side: Side,
    pub shares: LinkedList<Share>,
    pub most: usize,
    pub number: u32,
    pub count: u32,
}

impl<'a> Held for Shard<'a> {
    type Plan = ShardPlan;

    type Entry = u32;

    ghost plan = { plan_of };

    ghost log = { λ _. [] };

    ghost by = { λ _. 0 };
}

impl<'a> Shard<'a> {
    /// The shard of that number among so many, without an entry, for at most so many.
    pub(crate) fn new(
        alloc: Global,
        shares: &'a [Share],
        side: Side,
        entries: u32,
        number: u32,
        count: u32,
    ) -> Result<Shard<'a>, AllocError>
        requires entries { 0 < entries }
        ensures plan { IfOk result (λ s. plan_of s ≡ planned side shares.entry.now entries count number) }
    {
        Ok(Shard {
            state: CacheState::new(alloc, shares, side, entries)?,
            number,
            count,
        })
    }

    /// Looks up a report of its own at a prefix, as [`CacheState::look`] does.
    fn look(&mut self, report: u32, prefix: &Prefix) -> Option<Node>
        requires count { 0 < self.old.count }
        requires own { report % self.old.count ≡ self.old.number }
        ensures node { IfSome result (λ n. n ≡ node_at self.old.state.shares self.old.state.side report prefix.now) }
        ensures same { plan_of self.new ≡ plan_of self.old }
    {
        self.state.look(report, prefix)
    }

    /// Offers a node of a report of its own, as [`CacheState::keep`] does. Without memory it is not kept.
    fn keep(&mut self, report: u32, prefix: &Prefix, node: &Node)
        requires count { 0 < self.old.count }
        requires own { report % self.old.count ≡ self.old.number }
        requires report { report < length self.old.state.shares }
        requires some { 0 < length prefix.now }
        requires bits { length prefix.now ≤ length (share_at self.old.state.shares report).levels }
        requires node { node.now ≡ node_at self.old.state.shares self.old.state.side report prefix.now }
        ensures same { plan_of self.new ≡ plan_of self.old }
    {
        let _kept = self.state.keep(report, prefix, node);
    }

    /// Looks up each prefix of a report of its own, and says of each in `into` what was found.
    pub(crate) fn look_all(&mut self, report: u32, prefixes: &[Prefix], into: &mut [Option<Node>])
        requires count { 0 < self.old.count }
        requires own { report % self.old.count ≡ self.old.number }
        requires lengths { length prefixes.now ≡ length into.old }
        ensures same { plan_of self.new ≡ plan_of self.old }
        ensures lengths { length into.new ≡ length into.old }
        ensures found { AreFound self.old.state.shares self.old.state.side report prefixes.now into.new }
    {
        for (place, prefix) in prefixes.iter().enumerate() {
            into[place] = self.look(report, prefix);
        }
    }

    /// Offers the nodes of the prefixes of a report of its own, in order.
    pub(crate) fn keep_all(&mut self, report: u32, prefixes: &[Prefix], nodes: &[Node])
        requires count { 0 < self.old.count }
        requires own { report % self.old.count ≡ self.old.number }
        requires report { report < length self.old.state.shares }
        requires nodes { AreFor self.old.state.shares self.old.state.side report prefixes.now nodes.now }
        ensures same { plan_of self.new ≡ plan_of self.old }
    {
        for (place, prefix) in prefixes.iter().enumerate() {
            self.keep(report, prefix, &nodes[place]);
        }
    }
}

/// So many shards without an entry, by number.
pub(crate) fn empty_shards<'a>(
    alloc: Global,
    shares: &'a [Share],
    side: Side,
    shards: u32,
    entries: u32,
) -> Result<Vec<Shard<'a>>, AllocError>
    requires entries { 0 < entries }
    ensures plans { IfOk result (λ made. map plan_of made.items ≡ map (planned side shares.entry.now entries shards) (range_with_len 0 shards)) }
{
    let mut made = Vec::with_capacity(alloc, shards as usize)?;
    for number in 0..shards {
        made.push_reserved(Shard::new(alloc, shares, side, entries, number, shards)?);
    }
    Ok(made)
}
