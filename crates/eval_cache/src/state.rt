//! One cache: nodes of one side's shares, each under its report and prefix, the one that was used last first.
//! It stands on `lru`, whose refusals only mean that a node is not kept.

ghost use Rattle.std.specs.Prelude.{◌≡◌, ◌<◌, ◌≤◌, [], length, true, IfOk, IfSome, IsSome};
ghost use Rattle.std.specs.Bool.{OnTrue, OnFalse};
ghost use Rattle.kept_nodes.specs.Kept.{node_at, share_at};
ghost use Rattle.eval_cache.specs.Entries.{found_in, used, kept};

use crate::key::Key;
use idpf_eval::{Node, Share};
use lru::LruCache;
use prefix_bits::{Prefix, Side};
use std::alloc::{AllocError, Global};
use std::marker::Model;
use std::num::NonZeroUsize;

/// Nodes of one side's shares, at most so many, the one that was used last first. Each entry's node is
/// the evaluated one of its own report's share at its own prefix.
#[derive(Drop)]
pub struct CacheState<'a> {
    shares: &'a [Share],
    side: Side,
    cache: LruCache<Key, Node>,
}

impl<'a> Model for CacheState<'a> {
    ghost use Rattle.eval_cache.specs.Entries.{CacheSeen, AreNodes};

    ghost Value = { CacheSeen };

    ghost view = { λ s. record { shares = s.shares.now; side = s.side; entries = s.cache.entries; most = s.cache.cap } };

    ghost invariant = { λ s. AreNodes s.shares.now s.side s.cache.entries };
}

impl<'a> CacheState<'a> {
    /// A cache without an entry, for at most so many, of which there is to be one at least.
    /// `AllocError` is want of memory.
    pub fn new(
        alloc: Global,
        shares: &'a [Share],
        side: Side,
        entries: u32,
    ) -> Result<CacheState<'a>, AllocError>
        requires entries { 0 < entries }
        ensures exact { IfOk result (λ c. c ≡ record { shares = shares.entry.now; side = side; entries = []; most = entries }) }
    {
        let Some(most) = NonZeroUsize::new(entries as usize) else {
            unreachable!()
        };
        Ok(CacheState {
            shares,
            side,
            cache: LruCache::new(alloc, most)?,
        })
    }

    /// The number of entries, at most the capacity.
    pub fn len(&self) -> usize
        ensures count { result ≡ length self.now.entries }
        ensures most { result ≤ self.now.most }
    {
        self.cache.len()
    }

    /// The node of a report at a prefix, exactly where there is an entry of them. That entry is then the first, and
    /// all others stay in their order; where there is none, all stay. It takes no memory.
    pub fn look(&mut self, report: u32, prefix: &Prefix) -> Option<Node>
        ensures found { result ≡ found_in report prefix.now self.old.entries }
        ensures node { IfSome result (λ n. n ≡ node_at self.old.shares self.old.side report prefix.now) }
        ensures used { self.new ≡ used report prefix.now self.old }
    {
        let key = Key {
            report,
            prefix: *prefix,
        };
        self.cache.get(&key).copied()
    }

    /// Keeps the evaluated node of a report at a prefix, which is to have a bit and no more than the report's levels.
    ///
    /// True: its entry is the first, and where it had none before, a full cache has dropped its last; all others
    /// stay in their order. False: nothing changed, for want of memory; never where there is an entry of them.
    pub fn keep(&mut self, report: u32, prefix: &Prefix, node: &Node) -> bool
        requires report { report < length self.old.shares }
        requires some { 0 < length prefix.now }
        requires bits { length prefix.now ≤ length (share_at self.old.shares report).levels }
        requires node { node.now ≡ node_at self.old.shares self.old.side report prefix.now }
        ensures kept { OnTrue result (self.new ≡ kept report prefix.now node.now self.old) }
        ensures refused { OnFalse result (self.new ≡ self.old) }
        ensures there { IsSome (found_in report prefix.now self.old.entries) → result ≡ true }
    {
        let key = Key {
            report,
            prefix: *prefix,
        };
        self.cache.put(key, *node).is_ok()
    }
}
