//! The check of one report at a level, over the whole list of candidates at once.
//! Each call is the definition of its name in `walk_definitions`.

ghost use Rattle.std.specs.Prelude.{◌≡◌, ◌≤◌, length};
ghost use Rattle.std.specs.List.{All};
ghost use Rattle.definitions.specs.Sketch.{coin_at, partial_sums};
ghost use Rattle.definitions.specs.Check.{values_d, values_e};
ghost use Rattle.walk_definitions.specs.Reports.{held};
ghost use Rattle.walk_definitions.specs.Walk.{own_sums, own_sigma, passes};

use crate::reports::{Report, Settings};
use definitions::Side;
use field64::Fe;
use idpf_eval::{Share, eval_uncounted};
use prefix_bits::Prefix;
use sketch_check::{CoinKey, Sums, correlation, masked, open, sigma};

/// A share's sums over the candidates, with the coins of a key.
fn partial_sums(key: &CoinKey, level: u16, candidates: &[Prefix], side: Side, share: &Share) -> Sums
    requires few { length candidates.now ≤ 65536 }
    requires long { All (λ q. length q ≤ length share.now.levels) candidates.now }
    ensures value { result ≡ partial_sums (coin_at key.now level) (values_d share.now side candidates.now) (values_e share.now side candidates.now) }
{
    let mut sums = Sums::zero();
    for (place, prefix) in candidates.iter().enumerate() {
        let node = eval_uncounted(share, side, prefix);
        sums = sums.with(key.coin(level, place as u32), node.d, node.e);
    }
    sums
}

/// A side's own sums of a report, hidden by its part of the correlation.
fn own_sums(
    settings: &Settings,
    level: u16,
    candidates: &[Prefix],
    side: Side,
    report: &Report,
) -> Sums
    requires few { length candidates.now ≤ 65536 }
    requires long { All (λ q. length q ≤ length (held report.now side).levels) candidates.now }
    ensures value { result ≡ own_sums settings.now level candidates.now side report.now }
{
    let key = CoinKey::of(&settings.verify, &report.id);
    let share = report.held(side);
    let partial = partial_sums(&key, level, candidates, side, share);
    masked(&partial, &correlation(&share.corr, level))
}

/// A side's sigma of a report, of the opened sums.
fn own_sigma(level: u16, side: Side, report: &Report, opened: &Sums) -> Fe
    requires first { 1 ≤ level }
    requires last { level ≤ length (held report.now side).levels }
    ensures value { result ≡ own_sigma level side report.now opened.now }
{
    let share = report.held(side);
    let word = share.levels.as_slice()[usize::from(level - 1)];
    sigma(side, word.a, word.b, opened)
}

/// Whether a report passes a level, counted from 1: whether both sides' sigmas add up to 0. The candidates have no more
/// bits than the level, which both shares reach.
pub fn passes(settings: &Settings, level: u16, candidates: &[Prefix], report: &Report) -> bool
    requires few { length candidates.now ≤ 65536 }
    requires long { All (λ q. length q ≤ level) candidates.now }
    requires first { 1 ≤ level }
    requires last0 { level ≤ length report.now.held0.levels }
    requires last1 { level ≤ length report.now.held1.levels }
    ensures value { result ≡ passes settings.now level candidates.now report.now }
{
    let zero = own_sums(settings, level, candidates, Side::Zero, report);
    let one = own_sums(settings, level, candidates, Side::One, report);
    let opened = open(&zero, &one);
    let left = own_sigma(level, Side::Zero, report, &opened);
    let right = own_sigma(level, Side::One, report, &opened);
    sketch_check::passes(left, right)
}
