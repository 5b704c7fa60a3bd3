//! A side's sigmas, one for each live report, from what it opened.
//! They say nothing of the report but whether both sides' add up to 0.

ghost use Rattle.std.specs.Prelude.{◌≡◌, ◌<◌, ◌≤◌, IfOk, map, length};
ghost use Rattle.std.specs.List.{All};
ghost use Rattle.walk_definitions.specs.Walk.{own_sigma};
ghost use Rattle.walk_definitions.specs.Heard.{sigmas};
ghost use Rattle.pair_run.specs.Places.{picked, alone};

use field64::Fe;
use idpf_eval::Share;
use prefix_bits::Side;
use sketch_check::{Sums, sigma};
use std::alloc::{AllocError, Global};

/// A share's sigma of the opened sums.
fn share_sigma(level: u16, side: Side, share: &Share, opened: &Sums) -> Fe
    requires first { 1 ≤ level }
    requires last { level ≤ length share.now.levels }
    ensures value { result ≡ own_sigma level side (alone share.now) opened.now }
{
    let word = share.levels.as_slice()[usize::from(level - 1)];
    sigma(side, word.a, word.b, opened)
}

/// A side's sigmas at a level, counted from 1: one for each live report in order, of the sums that it opened. `live` are
/// places in `shares`. `AllocError` is want of memory.
pub fn own_sigmas(
    alloc: Global,
    level: u16,
    side: Side,
    shares: &[Share],
    live: &[u32],
    opened: &[Sums],
) -> Result<Vec<Fe>, AllocError>
    requires first { 1 ≤ level }
    requires last { All (λ s. level ≤ length s.levels) shares.now }
    requires places { All (λ k. k < length shares.now) live.now }
    requires opened { length opened.now ≡ length live.now }
    ensures sigmas { IfOk result (λ found. found.items ≡ sigmas level side (map alone (picked shares.now live.now)) opened.now) }
{
    let mut found = Vec::with_capacity(alloc, live.len())?;
    for (k, place) in live.iter().enumerate() {
        let share = &shares[*place as usize];
        found.push(share_sigma(level, side, share, &opened[k]))?;
    }
    Ok(found)
}
