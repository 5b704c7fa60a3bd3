//! What is kept of a level for the next one.
//! Nothing is kept where the cache has room for all, or where it would be too much.

ghost use Rattle.std.specs.Prelude.{◌≡◌, ◌≤◌, ◌<◌, ◌-◌, length, IfOk};
ghost use Rattle.std.specs.List.{All};
ghost use Rattle.idpf_lanes.specs.Stands.{AreLong};

use crate::MOST_KEPT;
use crate::kept_nodes::KeptNodes;
use crate::making::kept_at;
use idpf_lanes::fronts_of;
use prefix_bits::Prefix;
use std::alloc::{AllocError, Global};
use std::sync::Wait;
use std::thread::Threads;

/// The fronts of candidates, one bit shorter than they are, those that are the same and follow one another but once. `AllocError` is
/// want of memory.
fn fronts(alloc: Global, level: u16, candidates: &[Prefix]) -> Result<Vec<Prefix>, AllocError>
    requires first { 1 ≤ level }
    requires bits { AreLong level candidates.now }
    ensures bits { IfOk result (λ made. AreLong (level - 1) made.items) }
{
    let mut fronts = vec![in alloc; Prefix::empty(); candidates.len()]?;
    let mut places = vec![in alloc; 0; candidates.len()]?;
    let made = fronts_of(level, candidates, &mut fronts, &mut places);
    fronts.truncate(made);
    Ok(fronts)
}

/// Whether the nodes of so many reports at the fronts are to be kept: a cache of so many entries has no room for twice those at the
/// candidates, which are the level's own and those of the level above, and the nodes at the fronts are not too many.
fn is_worth_keeping(reports: usize, fronts: usize, candidates: usize, entries: u64) -> bool {
    let level = reports.saturating_mul(candidates);
    level.saturating_mul(2) as u64 > entries && reports.saturating_mul(fronts) <= MOST_KEPT
}

impl<'a> KeptNodes<'a> {
    /// The nodes at the fronts of a level's candidates, where they are to be kept.
    fn at_fronts<R: Threads + Wait + Sync>(
        &self,
        rt: &R,
        alloc: Global,
        level: u16,
        candidates: &[Prefix],
        live: &[u32],
        entries: u64,
        threads: u32,
    ) -> Result<KeptNodes<'a>, AllocError>
        requires second { 2 ≤ level }
        requires bits { AreLong level candidates.now }
        requires live { All (λ i. i < length self.now.shares) live.now }
        requires levels { All (λ s. level ≤ length s.levels) self.now.shares }
        requires threads { 1 ≤ threads }
        ensures { IfOk result (λ kept. kept ≡ self.entry.now) }
    {
        let fronts = fronts(alloc, level, candidates)?;
        if !is_worth_keeping(live.len(), fronts.len(), candidates.len(), entries) {
            return Ok(KeptNodes::none(alloc, self.shares(), self.side()));
        }
        let fronts = fronts.as_slice();
        kept_at(rt, alloc, self, level - 1, fronts, live, threads as usize)
    }

    /// What is kept for a level with these candidates and live reports: the nodes of the live reports at the fronts of the
    /// candidates. Each is made from what was kept for the level before, where that has its parent. So many threads make them at once.
    ///
    /// Nothing is kept where a cache of so many entries has room for twice the nodes at the candidates, where those at the fronts are
    /// more than [`MOST_KEPT`](crate::MOST_KEPT), and where there is no memory for them.
    pub fn next<R: Threads + Wait + Sync>(
        &self,
        rt: &R,
        alloc: Global,
        level: u16,
        candidates: &[Prefix],
        live: &[u32],
        entries: u64,
        threads: u32,
    ) -> KeptNodes<'a>
        requires second { 2 ≤ level }
        requires bits { All (λ q. length q ≡ level) candidates.now }
        requires live { All (λ i. i < length self.now.shares) live.now }
        requires levels { All (λ s. level ≤ length s.levels) self.now.shares }
        requires threads { 1 ≤ threads }
        ensures { result ≡ self.entry.now }
    {
        match self.at_fronts(rt, alloc, level, candidates, live, entries, threads) {
            Ok(kept) => kept,
            Err(_) => KeptNodes::none(alloc, self.shares(), self.side()),
        }
    }
}
