//! The shared cache: several shards, each behind a lock of its own, used by many threads through passes.
//! What is found is the evaluated node; whether it is found depends on who came when. Beside them stand kept nodes, which are only read.

ghost use Rattle.std.specs.Prelude.{◌≡◌, ◌<◌, ◌≤◌, ◌%◌, [], length, IfOk, vec_len};
ghost use Rattle.std.specs.List.{All, AllByRecursion};
ghost use Rattle.lock_row.specs.Rows.{turn_locks};
ghost use Rattle.eval_cache.specs.Shards.{plan_of, planned, AreFound, AreFor};

use crate::pass::{CachePass, passes_of};
use crate::shard::{Shard, empty_shards};
use idpf_eval::{Node, Share};
use kept_nodes::KeptNodes;
use lock_row::{Row, RowTurn};
use prefix_bits::{Prefix, Side};
use std::alloc::{AllocError, Global};
use std::marker::Model;
use std::sync::Wait;
use std::thread::Threads;

/// Evaluated nodes of one side's shares, to be shared by `&`. The nodes of report n are in the shard n modulo the number of shards.
#[derive(Drop)]
pub struct EvalCache<'a> {
    shares: &'a [Share],
    side: Side,
    most: u32,
    row: Row<Shard<'a>>,
    kept: KeptNodes<'a>,
}

impl<'a> Model for EvalCache<'a> {
    ghost use Rattle.std.specs.Prelude.{◌≡◌, ◌<◌, length};
    ghost use Rattle.eval_cache.specs.Shards.{SharedSeen, AreShards};

    ghost Value = { SharedSeen };

    ghost view = { λ c. record { shares = c.shares.now; side = c.side; most = c.most; locks = c.row.locks } };

    ghost invariant = { λ c. (0 < length c.row.locks) × AreShards c.side c.shares.now c.most c.row.locks
        × (c.kept.side ≡ c.side) × (c.kept.shares ≡ c.shares.now) };
}

impl<'a> EvalCache<'a> {
    /// A cache of so many shards, each for at most so many entries, with 1 to 4096 passes. It has no entry yet.
    /// `AllocError` is want of memory.
    pub fn new(
        alloc: Global,
        shares: &'a [Share],
        side: Side,
        shards: u32,
        entries: u32,
        passes: u32,
    ) -> Result<(EvalCache<'a>, Vec<CachePass<'a>>), AllocError>
        requires shards { 0 < shards }
        requires entries { 0 < entries }
        requires passes { (0 < passes) × (passes ≤ 4096) }
        ensures shares { IfOk result (λ made. made.0.shares ≡ shares.entry.now) }
        ensures side { IfOk result (λ made. made.0.side ≡ side) }
        ensures most { IfOk result (λ made. made.0.most ≡ entries) }
        ensures shards { IfOk result (λ made. length made.0.locks ≡ shards) }
        ensures count { IfOk result (λ made. vec_len made.1 ≡ passes) }
        ensures passes { IfOk result (λ made. AllByRecursion (λ pass. pass ≡ made.0.locks) made.1.items) }
    {
        let states = empty_shards(alloc, shares, side, shards, entries)?;
        let (row, rows) = Row::new(alloc, states, passes)?;
        let made = passes_of(alloc, rows)?;
        let cache = EvalCache {
            shares,
            side,
            most: entries,
            row,
            kept: KeptNodes::none(alloc, shares, side),
        };
        Ok((cache, made))
    }

    /// Looks the prefixes of a report up, and says of each in `into`, at its place, what was found: each
    /// node is the evaluated one. It waits for its turn at the report's shard, once, and takes no memory.
    pub fn gather<R: Wait>(
        &self,
        rt: &R,
        pass: CachePass<'a>,
        report: u32,
        prefixes: &[Prefix],
        into: &mut [Option<Node>],
    ) -> CachePass<'a>
        requires this_cache { pass ≡ self.now.locks }
        requires lengths { length prefixes.now ≡ length into.old }
        ensures this_cache { result ≡ self.now.locks }
        ensures lengths { length into.new ≡ length into.old }
        ensures found { AreFound self.now.shares self.now.side report prefixes.now into.new }
    {
        let (mut from, turn) = self.take_shard(rt, pass, report);
        from.look_all(report, prefixes, into);
        self.give_shard(from, turn)
    }

    /// Offers the evaluated nodes of a report's prefixes to its shard, in order. It waits for its turn there, once.
    /// A node that finds no memory is not kept.
    pub fn scatter<R: Wait>(
        &self,
        rt: &R,
        pass: CachePass<'a>,
        report: u32,
        prefixes: &[Prefix],
        nodes: &[Node],
    ) -> CachePass<'a>
        requires this_cache { pass ≡ self.now.locks }
        requires report { report < length self.now.shares }
        requires nodes { AreFor self.now.shares self.now.side report prefixes.now nodes.now }
        ensures this_cache { result ≡ self.now.locks }
    {
        let (mut to, turn) = self.take_shard(rt, pass, report);
        to.keep_all(report, prefixes, nodes);
        self.give_shard(to, turn)
    }

    /// The nodes that are kept beside the shards. They are read without a turn.
    pub fn kept(&self) -> &KeptNodes<'a>
        ensures side { result.now.side ≡ self.now.side }
        ensures shares { result.now.shares ≡ self.now.shares }
    {
        &self.kept
    }

    /// The nodes to keep for a level with these candidates and live reports, as [`KeptNodes::next`] makes them from those that are kept
    /// now, by so many threads: none where the shards have room for all.
    pub fn kept_for<R: Threads + Wait + Sync>(
        &self,
        rt: &R,
        alloc: Global,
        level: u16,
        candidates: &[Prefix],
        live: &[u32],
        threads: u32,
    ) -> KeptNodes<'a>
        requires second { 2 ≤ level }
        requires bits { All (λ q. length q ≡ level) candidates.now }
        requires live { All (λ i. i < length self.now.shares) live.now }
        requires levels { All (λ s. level ≤ length s.levels) self.now.shares }
        requires threads { 1 ≤ threads }
        ensures side { result.side ≡ self.now.side }
        ensures shares { result.shares ≡ self.now.shares }
    {
        let entries = u64::from(self.most).saturating_mul(self.row.len() as u64);
        self.kept
            .next(rt, alloc, level, candidates, live, entries, threads)
    }

    /// Keeps these nodes beside the shards in the place of those before. Nothing else is changed.
    pub fn keep(&mut self, kept: KeptNodes<'a>)
        requires side { kept.side ≡ self.old.side }
        requires shares { kept.shares ≡ self.old.shares }
        ensures { self.new ≡ self.old }
    {
        self.kept = kept;
    }

    /// Waits for the turn at the report's shard, and takes it.
    fn take_shard<R: Wait>(
        &self,
        rt: &R,
        pass: CachePass<'a>,
        report: u32,
    ) -> (Shard<'a>, RowTurn<Shard<'a>>)
        requires this_cache { pass ≡ self.now.locks }
        ensures count { 0 < length self.now.locks }
        ensures shard { plan_of result.0 ≡ planned self.now.side self.now.shares self.now.most (length self.now.locks) (report % length self.now.locks) }
        ensures this_cache { turn_locks result.1 ≡ self.now.locks }
        ensures plan { plan_of result.0 ≡ result.1.turn.lock.plan }
        ensures empty { result.1.turn.taken ≡ [] }
    {
        self.row
            .take(rt, report as usize % self.row.len(), pass.into_row())
    }

    /// Gives a shard back.
    fn give_shard(&self, shard: Shard<'a>, turn: RowTurn<Shard<'a>>) -> CachePass<'a>
        requires this_cache { turn_locks turn ≡ self.now.locks }
        requires plan { plan_of shard ≡ turn.turn.lock.plan }
        requires empty { turn.turn.taken ≡ [] }
        ensures this_cache { result ≡ self.now.locks }
    {
        CachePass::of(self.row.give(shard, turn))
    }
}
