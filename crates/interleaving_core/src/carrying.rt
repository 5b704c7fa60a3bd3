//! What both sides of a phase come to together: the live reports that pass, or the totals.
//! Each is the definitions' word of a carry over plain lists.

ghost use Rattle.std.specs.Prelude.{◌≡◌, suc, ◌≤◌, ◌<◌, length, map, IfOk};
ghost use Rattle.std.specs.List.{All};
ghost use Rattle.definitions.specs.declared.Side.TheVariants.{Zero, One};
ghost use Rattle.definitions.specs.Field.{add};
ghost use Rattle.definitions.specs.Sketch.{correlation, masked};
ghost use Rattle.definitions.specs.Check.{side_sigma};
ghost use Rattle.walk_definitions.specs.Reports.{held};
ghost use Rattle.walk_definitions.specs.Heard.{paired};
ghost use Rattle.core_definitions.specs.System.{passes_by, passed_by};

use definitions::Side;
use field64::Fe;
use half_events::Stage;
use idpf_eval::Share;
use sketch_check::{Sums, correlation, masked, open, passes, sigma};
use std::alloc::{AllocError, Global};

// A share's sums of a level, hidden by its part of the correlation.
fn hidden(share: &Share, level: u16, sums: &Sums) -> Sums
    ensures { result ≡ masked sums.now (correlation share.now.corr level) }
{
    masked(sums, &correlation(&share.corr, level))
}
// A share's sigma of what both sides opened.
fn sigma_of(share: &Share, side: Side, level: u16, opened: &Sums) -> Fe
    requires first { 1 ≤ level }
    requires last { level ≤ length share.now.levels }
    ensures { result ≡ side_sigma share.now side level opened.now }
{
    let word = share.levels.as_slice()[usize::from(level - 1)];
    sigma(side, word.a, word.b, opened)
}
// Whether a report passes by both sides' sums.
fn passes_at(stage: &Stage<'_>, place: u32, zero: &Sums, one: &Sums) -> bool
    requires place { place < length stage.now.batch }
    requires levels0 { All (λ s. suc stage.now.past ≤ length s.levels) (map (λ r. held r Zero) stage.now.batch) }
    requires levels1 { All (λ s. suc stage.now.past ≤ length s.levels) (map (λ r. held r One) stage.now.batch) }
    requires short { suc stage.now.past ≤ 65535 }
    ensures { result ≡ passes_by stage.now.batch (suc stage.now.past) place zero.now one.now }
{
    let level = stage.past + 1;
    let share0 = &stage.batch.shares(Side::Zero)[place as usize];
    let share1 = &stage.batch.shares(Side::One)[place as usize];
    let opened = open(&hidden(share0, level, zero), &hidden(share1, level, one));
    passes(
        sigma_of(share0, Side::Zero, level, &opened),
        sigma_of(share1, Side::One, level, &opened),
    )
}
/// The places of the live reports that pass the level by both sides' sums, in order. `AllocError` is want of memory.
pub fn passed_places(
    alloc: Global,
    stage: &Stage<'_>,
    zero: &[Sums],
    one: &[Sums],
) -> Result<Vec<u32>, AllocError>
    requires places { All (λ i. i < length stage.now.batch) stage.now.live }
    requires levels0 { All (λ s. suc stage.now.past ≤ length s.levels) (map (λ r. held r Zero) stage.now.batch) }
    requires levels1 { All (λ s. suc stage.now.past ≤ length s.levels) (map (λ r. held r One) stage.now.batch) }
    requires short { suc stage.now.past ≤ 65535 }
    requires zero { length zero.now ≡ length stage.now.live }
    requires one { length one.now ≡ length stage.now.live }
    ensures { IfOk result (λ still. still.items ≡ passed_by stage.now.batch (suc stage.now.past) stage.now.live zero.now one.now) }
{
    let mut still = Vec::new(alloc);
    for (k, place) in stage.live.iter().enumerate() {
        if passes_at(stage, *place, &zero[k], &one[k]) {
            still.push(*place)?;
        }
    }
    Ok(still)
}
/// Both sides' totals added, candidate by candidate. `AllocError` is want of memory.
pub fn added_totals(alloc: Global, zero: &[Fe], one: &[Fe]) -> Result<Vec<Fe>, AllocError>
    requires same { length zero.now ≡ length one.now }
    ensures { IfOk result (λ totals. totals.items ≡ paired add zero.now one.now) }
{
    let mut totals = Vec::with_capacity(alloc, zero.len())?;
    for (k, total) in zero.iter().enumerate() {
        totals.push(total.add(one[k]))?;
    }
    Ok(totals)
}
