//! A side's cache: nodes that were evaluated before, each with its report's place and its prefix.
//! A prefix's own entry is its node, and its parent's entry spares all steps but one.

ghost use Rattle.std.specs.Prelude.{◌≡◌, ◌<◌, ◌≤◌, not, length, option_copied};
ghost use Rattle.std.specs.List.{All, list_all};
ghost use Rattle.definitions.specs.Evaluation.{child, level_word, node};
ghost use Rattle.core_definitions.specs.Phase.{is_entry, without};
ghost use Rattle.half_events.specs.Caches.{IsTrueCache, found_in};
ghost use Rattle.phase_state.specs.Sums.{share_at};

use definitions::Side;
use idpf_eval::{Node, Share, eval_uncounted, step};
use phase_state::PhasePlan;
use prefix_bits::Prefix;
use seed_expand::Steps;
use std::marker::{Brand, Model};
use std::sync::ledger::{Blank, Ledger};

/// An entry of a cache.
#[derive(Clone, Copy, Debug)]
pub struct CacheEntry {
    /// The report's place in the batch.
    pub report: u32,
    /// The prefix.
    pub prefix: Prefix,
    /// The report's node there.
    pub node: Node,
}

impl Model for CacheEntry {
    ghost use Rattle.core_definitions.specs.Phase.{CacheEntry as Evaluated};

    ghost Value = { Evaluated };

    ghost view = { λ e. record { report = e.report; prefix = e.prefix; node = e.node } };

    ghost inverse = { λ e. record { report = e.report; prefix = e.prefix; node = e.node } };
}

impl CacheEntry {
    // Whether the entry is of this report and prefix.
    fn is_of(&self, report: u32, prefix: &Prefix) -> bool
        ensures { result ≡ is_entry report prefix.now self.now }
    {
        self.report == report && self.prefix == *prefix
    }
}

/// The node that the cache has of a report at a prefix.
pub fn find(cache: &[CacheEntry], report: u32, prefix: &Prefix) -> Option<Node>
    ensures { result ≡ found_in cache.now report prefix.now }
{
    for entry in cache {
        if entry.is_of(report, prefix) {
            return Some(entry.node);
        }
    }
    None
}

/// Drops the entry of a report at a prefix, where there is one.
pub fn evict(cache: &mut Vec<CacheEntry>, report: u32, prefix: &Prefix)
    ensures { cache.new.items ≡ without report prefix.now cache.old.items }
{
    cache.retain(|entry| !entry.is_of(report, prefix));
}

// The child of a node along the last bit of a prefix, with a counter of the caller's blank.
fn child_on<L: Ledger>(
    share: &Share,
    side: Side,
    parent: &Node,
    level: u16,
    bit: bool,
    blank: Blank,
) -> Node
    requires first { 1 ≤ level }
    requires last { level ≤ length share.now.levels }
    requires name { blank.name ≡ L.name }
    requires parts { blank.parts ≡ L.parts }
    requires some { 0 < blank.parts }
    ensures { result ≡ child (level_word share.now level) side parent.now bit }
{
    step(
        share,
        side,
        parent,
        level,
        bit,
        &mut Steps::<L>::open(blank),
    )
}

// The child of a node along a bit, at this level.
fn child_of(share: &Share, side: Side, parent: &Node, level: u16, bit: bool) -> Node
    requires first { 1 ≤ level }
    requires last { level ≤ length share.now.levels }
    ensures { result ≡ child (level_word share.now level) side parent.now bit }
{
    child_on::<Brand>(share, side, parent, level, bit, Blank::new(1))
}

/// A report's node at a prefix of at least one bit, by the entry of the prefix or of its parent, or else from the root.
pub fn node_of(cache: &[CacheEntry], plan: &PhasePlan<'_>, report: u32, prefix: &Prefix) -> Node
    requires cached { IsTrueCache plan.now.shares plan.now.side cache.now }
    requires report { report < length plan.now.shares }
    requires some { 1 ≤ length prefix.now }
    requires bits { All (λ s. length prefix.now ≤ length s.levels) plan.now.shares }
    ensures { result ≡ node (share_at plan.now.shares report) plan.now.side prefix.now }
{
    if let Some(node) = find(cache, report, prefix) {
        return node;
    }
    let share = &plan.shares[report as usize];
    match find(cache, report, &prefix.parent()) {
        Some(parent) => {
            let level = prefix.len();
            child_of(share, plan.side, &parent, level, prefix.bit(level - 1))
        }
        None => eval_uncounted(share, plan.side, prefix),
    }
}
