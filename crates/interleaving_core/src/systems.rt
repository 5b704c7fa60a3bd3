//! The system after a list of events, and what it tells.
//! It is seen as the definitions' system is, by `specs/Systems`.

ghost use Rattle.std.specs.Prelude.{◌≡◌, Some, None, IfSome, IfNone};
ghost use Rattle.interleaving_core.specs.Systems.{told_of, totals_at, ending_of};

use crate::outcomes::Outcome;
use crate::walks::Walked;
use field64::Fe;
use phase_state::Kind;
use prefix_bits::Prefix;
use report_batch::Batch;
use std::marker::Model;

/// Where a system stands.
#[derive(Drop)]
pub(crate) enum Standing {
    /// Uploads are taken, and there is no batch.
    Collecting,
    /// The walk is in a phase.
    Walking(Walked),
    /// The walk ended so.
    Ended(Walked, Outcome),
}

/// A system: collecting, walking at a level and phase, or ended. It owns the batch, the live reports, the candidates and the
/// totals; what is posted in a phase and the caches are gone.
#[derive(Drop)]
pub struct System {
    standing: Standing,
}

impl Model for System {
    ghost use Rattle.interleaving_core.specs.Systems.{SystemSeen, told_of};

    ghost Value = { SystemSeen };

    ghost view = { λ s. told_of s.standing };
}

impl System {
    /// The system that stands so.
    pub(crate) fn of(standing: Standing) -> System
        ensures { result ≡ told_of standing }
    {
        System { standing }
    }

    /// The batch. `None` exactly while the system collects.
    pub fn batch(&self) -> Option<&Batch>
        ensures some { IfSome result (λ batch. self.now.batch ≡ Some batch.now) }
        ensures none { IfNone result (self.now.batch ≡ None) }
    {
        match &self.standing {
            Standing::Collecting => None,
            Standing::Walking(walked) => Some(&walked.batch),
            Standing::Ended(walked, _) => Some(&walked.batch),
        }
    }

    /// The phase. `None` exactly while the system collects, and once it has ended.
    pub fn phase(&self) -> Option<Kind>
        ensures { result ≡ self.now.phase }
    {
        match &self.standing {
            Standing::Walking(walked) => Some(walked.kind),
            _ => None,
        }
    }

    /// The level, counted from 1: 0 while the system collects, and the last one once it has ended.
    pub fn level(&self) -> u16
        ensures { result ≡ self.now.level }
    {
        match &self.standing {
            Standing::Collecting => 0,
            Standing::Walking(walked) => walked.frontier.level(),
            Standing::Ended(walked, _) => walked.frontier.level(),
        }
    }

    /// The live reports, as ascending places in the batch: none while the system collects, and those of the last phase once
    /// it has ended.
    pub fn live(&self) -> &[u32]
        ensures { result.now ≡ self.now.live }
    {
        match &self.standing {
            Standing::Collecting => &[],
            Standing::Walking(walked) => walked.live.as_slice(),
            Standing::Ended(walked, _) => walked.live.as_slice(),
        }
    }

    /// The level's candidates: none while the system collects, and those of the last level once it has ended.
    pub fn candidates(&self) -> &[Prefix]
        ensures { result.now ≡ self.now.candidates }
    {
        match &self.standing {
            Standing::Collecting => &[],
            Standing::Walking(walked) => walked.frontier.candidates(),
            Standing::Ended(walked, _) => walked.frontier.candidates(),
        }
    }

    /// The totals of a level's candidates, both sides' added. `Some` exactly for a level whose phase of totals was carried.
    pub fn totals(&self, level: u16) -> Option<&[Fe]>
        ensures some { IfSome result (λ totals. totals_at self.now.totals level ≡ Some totals.now) }
        ensures none { IfNone result (totals_at self.now.totals level ≡ None) }
    {
        match &self.standing {
            Standing::Collecting => None,
            Standing::Walking(walked) => walked.totals_of(level),
            Standing::Ended(walked, _) => walked.totals_of(level),
        }
    }

    /// How the walk ended. `None` exactly where it has not.
    pub fn outcome(&self) -> Option<&Outcome>
        ensures some { IfSome result (λ outcome. self.now.outcome ≡ Some (ending_of outcome.now)) }
        ensures none { IfNone result (self.now.outcome ≡ None) }
    {
        match &self.standing {
            Standing::Ended(_, outcome) => Some(outcome),
            _ => None,
        }
    }
}
