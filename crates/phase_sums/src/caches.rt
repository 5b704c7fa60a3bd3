//! The caches of both sides, which outlive the phases that use them, and the passes that one phase after another is given.
//! Each side's cache has sixteen shards, and beside them what is kept for the next level.

ghost use Rattle.std.specs.Prelude.{◌≡◌, ◌+◌, ◌<◌, ◌≤◌, IfOk, length, vec_len};
ghost use Rattle.std.specs.List.{All};
ghost use Rattle.definitions.specs.declared.Side.TheVariants.{Zero, One};
ghost use Rattle.phase_sums.specs.Caches.{AreCaches};

use eval_cache::{CachePass, EvalCache};
use idpf_eval::Share;
use prefix_bits::{Prefix, Side};
use std::alloc::{AllocError, Global};
use std::marker::Model;
use std::sync::Wait;
use std::thread::Threads;

/// The shards of a side's cache.
const SHARDS: u32 = 16;

/// One cache of each side, to be shared by `&`.
#[derive(Drop)]
pub struct Caches<'s> {
    pub(crate) zero: EvalCache<'s>,
    pub(crate) one: EvalCache<'s>,
}

impl<'s> Model for Caches<'s> {
    ghost use Rattle.phase_sums.specs.Caches.{CachesSeen};

    ghost Value = { CachesSeen };

    ghost view = { λ c. record { zero = c.zero; one = c.one } };
}

/// The passes of both sides' caches, as many on each side as a phase needs. Contracts see them as lists.
#[derive(Drop)]
pub struct CacheHold<'s> {
    pub(crate) zero: Vec<CachePass<'s>>,
    pub(crate) one: Vec<CachePass<'s>>,
}

impl<'s> Model for CacheHold<'s> {
    ghost use Rattle.phase_sums.specs.Caches.{HoldSeen};

    ghost Value = { HoldSeen };

    ghost view = { λ h. record { zero = h.zero.items; one = h.one.items } };
}

impl<'s> Caches<'s> {
    /// A cache of each side's shares, without an entry yet, for at most so many entries a shard, with the passes that phases
    /// of so many workers need. `AllocError` is want of memory.
    pub fn new(
        alloc: Global,
        zero: &'s [Share],
        one: &'s [Share],
        entries: u32,
        workers: u32,
    ) -> Result<(Caches<'s>, CacheHold<'s>), AllocError>
        requires entries { 1 ≤ entries }
        requires count { (1 ≤ workers) × (workers ≤ 64) }
        ensures { IfOk result (λ made. AreCaches zero.entry.now one.entry.now workers made.0 made.1) }
    {
        let (cache0, passes0) = EvalCache::new(
            alloc,
            zero,
            Side::Zero,
            SHARDS,
            entries,
            workers + 1,
        )?;
        let (cache1, passes1) = EvalCache::new(
            alloc,
            one,
            Side::One,
            SHARDS,
            entries,
            workers + 1,
        )?;
        let caches = Caches {
            zero: cache0,
            one: cache1,
        };
        let hold = CacheHold {
            zero: passes0,
            one: passes1,
        };
        Ok((caches, hold))
    }

    /// Keeps, beside each side's cache, the nodes that a level with these candidates begins with: of the live reports, at the fronts
    /// of the candidates. They take the place of those that were kept for the level before, and are made from these: first side 0's
    /// and then side 1's, each by so many threads at once. Nothing is kept where the shards have room for all, where it would be too
    /// much, or where there is no memory. It waits for the threads.
    pub fn keep<R: Threads + Wait + Sync>(
        &mut self,
        rt: &R,
        alloc: Global,
        level: u16,
        candidates: &[Prefix],
        live: &[u32],
        threads: u32,
    )
        requires second { 2 ≤ level }
        requires bits { All (λ q. length q ≡ level) candidates.now }
        requires live0 { All (λ i. i < length self.old.zero.shares) live.now }
        requires live1 { All (λ i. i < length self.old.one.shares) live.now }
        requires levels0 { All (λ s. level ≤ length s.levels) self.old.zero.shares }
        requires levels1 { All (λ s. level ≤ length s.levels) self.old.one.shares }
        requires threads { 1 ≤ threads }
        ensures { self.new ≡ self.old }
    {
        let zero = self
            .zero
            .kept_for(rt, alloc, level, candidates, live, threads);
        self.zero.keep(zero);
        let one = self
            .one
            .kept_for(rt, alloc, level, candidates, live, threads);
        self.one.keep(one);
    }
}
