//! The plan of one side's phase of a level.
//! The side's shares, the live reports and the candidates are cut into the tiles of the settings.

ghost use Rattle.std.specs.Prelude.{◌≡◌, ◌<◌, ◌≤◌, ◌^◌, length, map};
ghost use Rattle.std.specs.List.{All};
ghost use Rattle.prefix_bits.specs.declared.TheConstants.{MOST_BITS};
ghost use Rattle.phase_state.specs.Sums.{IsPhasePlan};
ghost use Rattle.pair_run.specs.Levels.{HaveLevels};
ghost use Rattle.pair_run.specs.Plans.{HasFewTiles, side_plan};
ghost use Rattle.pair_run.specs.Ranges.{AreInRange};

use crate::settings::WalkSettings;
use definitions::Side;
use phase_state::{Kind, PhasePlan};
use prefix_bits::Prefix;
use report_batch::Batch;
use tile_claims::TilePlan;

/// The plan of a side's phase of a kind at a level, counted from 1, over a batch's live reports and the candidates.
pub fn side_plan<'p>(
    settings: &WalkSettings,
    kind: Kind,
    level: u16,
    candidates: &'p [Prefix],
    side: Side,
    batch: &'p Batch,
    live: &'p [u32],
) -> PhasePlan<'p>
    requires settings { AreInRange MOST_BITS settings.now }
    requires tiles { HasFewTiles settings.now (length batch.now) }
    requires few { length candidates.now ≤ settings.now.cap }
    requires long { All (λ q. length q ≡ level) candidates.now }
    requires levels { HaveLevels level batch.now }
    requires places { All (λ k. k < length batch.now) live.now }
    requires small { length live.now < 2 ^ 27 }
    requires within { length live.now ≤ length batch.now }
    ensures fits { IsPhasePlan result }
    ensures exact { result ≡ side_plan settings.now kind level candidates.now side batch.now live.now }
    ensures named { map (λ s. s.id) result.shares ≡ map (λ r. r.id) batch.now }
{
    PhasePlan {
        side,
        kind,
        level,
        verify: settings.verify,
        shares: batch.shares(side),
        live,
        candidates,
        tiles: TilePlan::new(
            live.len() as u32,
            candidates.len() as u32,
            settings.by_reports,
            settings.by_candidates,
        ),
    }
}
