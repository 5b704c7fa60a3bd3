//! What a phase is over, of both sides: the batch, the level, and its live reports and candidates.
//! A side's plan of the phase is made from it.

ghost use Rattle.std.specs.Prelude.{◌≡◌};
ghost use Rattle.prefix_bits.specs.declared.TheConstants.{MOST_BITS};
ghost use Rattle.half_events.specs.Settings.{AreUsable};
ghost use Rattle.half_events.specs.Stages.{IsStage, IsPlanOf, phase_at};

use crate::settings::CoreSettings;
use definitions::{Sequence, Side};
use field64::Fe;
use phase_state::{Kind, PhasePlan};
use prefix_bits::Prefix;
use report_batch::Batch;
use std::marker::Model;
use tile_claims::TilePlan;

/// A phase of a level.
#[derive(Drop)]
pub struct Stage<'a> {
    /// The batch.
    pub batch: &'a Batch,
    /// The number of levels before this one.
    pub past: u16,
    /// What is added up.
    pub kind: Kind,
    /// The live reports, as places in the batch.
    pub live: &'a [u32],
    /// The level's candidates.
    pub candidates: &'a [Prefix],
    /// The totals of each level before this one.
    pub recorded: &'a [Sequence<Fe>],
}

impl<'a> Model for Stage<'a> {
    ghost use Rattle.half_events.specs.Stages.{StageSeen, kind_of};

    ghost Value = { StageSeen };

    ghost view = { λ s. record {
      batch = s.batch.now;
      past = s.past;
      kind = kind_of s.kind;
      live = s.live.now;
      candidates = s.candidates.now;
      recorded = s.recorded.now;
    } };
}

/// A side's plan of a phase.
pub fn plan_of<'a>(settings: &CoreSettings, stage: &Stage<'a>, side: Side) -> PhasePlan<'a>
    requires usable { AreUsable MOST_BITS settings.now }
    requires stage { IsStage settings.now stage.now }
    ensures { IsPlanOf settings.now (phase_at stage.now) side result }
{
    PhasePlan {
        side,
        kind: stage.kind,
        level: stage.past + 1,
        verify: settings.verify,
        shares: stage.batch.shares(side),
        live: stage.live,
        candidates: stage.candidates,
        tiles: TilePlan::new(
            stage.live.len() as u32,
            stage.candidates.len() as u32,
            settings.by_reports,
            settings.by_candidates,
        ),
    }
}
