//! A walk before a phase: the batch, the frontier, what is live, and the totals so far.
//! The definitions' walk at the beginning of a phase is made of it.

ghost use Rattle.std.specs.Prelude.{◌≡◌, ◌≤◌, ◌<◌, ◌^◌, Some, None, length, IfOk, IfSome, IfNone};
ghost use Rattle.std.specs.List.{All};
ghost use Rattle.definitions.specs.Prefixes.{AreCandidates};
ghost use Rattle.prefix_bits.specs.declared.TheConstants.{MOST_BITS};
ghost use Rattle.core_definitions.specs.System.{places};
ghost use Rattle.half_events.specs.Settings.{AreUsable};
ghost use Rattle.interleaving_core.specs.Systems.{totals_at};
ghost use Rattle.interleaving_core.specs.Walks.{stage_of, IsFirst};

use definitions::Sequence;
use field64::Fe;
use frontier_walk::Frontier;
use half_events::{CoreSettings, Stage};
use phase_state::Kind;
use report_batch::Batch;
use std::alloc::{AllocError, Global};

/// A walk before a phase.
#[derive(Drop)]
pub struct Walked {
    /// The batch.
    pub batch: Batch,
    /// The level's candidates.
    pub frontier: Frontier,
    /// The live reports, as places in the batch.
    pub live: Vec<u32>,
    /// What the phase adds up.
    pub kind: Kind,
    /// The totals of each level that was carried.
    pub totals: Vec<Sequence<Fe>>,
}

// The places of so many reports.
fn all_places(alloc: Global, count: u32) -> Result<Vec<u32>, AllocError>
    ensures { IfOk result (λ live. live.items ≡ places 0 count) }
{
    let mut live = Vec::with_capacity(alloc, count as usize)?;
    for place in 0..count {
        live.push(place)?;
    }
    Ok(live)
}

impl Walked {
    /// The walk before level 1, of which every report is live. `AllocError` is want of memory.
    pub fn begin(alloc: Global, settings: &CoreSettings, batch: Batch) -> Result<Walked, AllocError>
        requires usable { AreUsable MOST_BITS settings.now }
        requires few { length batch < 2 ^ 31 }
        ensures { IfOk result (IsFirst settings.now batch) }
    {
        let live = all_places(alloc, batch.len() as u32)?;
        let frontier = Frontier::first(alloc, settings.bits, settings.cap)?;
        Ok(Walked {
            batch,
            frontier,
            live,
            kind: Kind::Sketch,
            totals: Vec::new(alloc),
        })
    }

    /// The phase.
    pub fn stage(&self) -> Stage<'_>
        ensures stage { result ≡ stage_of self.now }
        ensures long { All (λ q. length q ≡ self.now.frontier.level) self.now.frontier.candidates }
        ensures most { length self.now.frontier.candidates ≤ 65536 }
        ensures last { self.now.frontier.level ≤ self.now.frontier.bits }
    {
        Stage {
            batch: &self.batch,
            past: self.frontier.level() - 1,
            kind: self.kind,
            live: &self.live,
            candidates: self.frontier.candidates(),
            recorded: &self.totals,
        }
    }

    /// The totals of a level, counted from 1, where it was carried.
    pub fn totals_of(&self, level: u16) -> Option<&[Fe]>
        ensures some { IfSome result (λ totals. totals_at self.now.totals.items level ≡ Some totals.now) }
        ensures none { IfNone result (totals_at self.now.totals.items level ≡ None) }
    {
        if level == 0 {
            return None;
        }
        match self.totals.get(usize::from(level - 1)) {
            Some(totals) => Some(totals.as_slice()),
            None => None,
        }
    }
}
