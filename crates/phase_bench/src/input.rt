//! The phase that is timed: shares of key generation, all live, and 8 candidates of 16 bits.
//! The plan's conditions are tried, since the shares come from a call that can fail.

ghost use Rattle.std.specs.Prelude.{◌≡◌, ◌<◌, ◌≤◌, true, length, IfSome};
ghost use Rattle.std.specs.List.{All};
ghost use Rattle.definitions.specs.declared.Side.TheVariants.{Zero};
ghost use Rattle.phase_state.specs.Sums.{IsPhasePlan};

use idpf_eval::Share;
use idpf_gen::gen_;
use phase_state::{Kind, PhasePlan};
use prefix_bits::{Prefix, Side};
use seed_expand::Seed;
use std::alloc::{AllocError, Global};
use tile_claims::TilePlan;

/// The level that is timed.
const LEVEL: u16 = 16;

/// Side 0's shares, their places, and the candidates.
#[derive(Drop)]
pub struct Input {
    pub shares: Vec<Share>,
    pub live: Vec<u32>,
    pub candidates: Vec<Prefix>,
}

impl Input {
    /// So many reports of one string of four each.
    pub fn new(alloc: Global, reports: u32) -> Result<Input, AllocError> {
        let mut input = Input {
            shares: Vec::new(alloc),
            live: Vec::new(alloc),
            candidates: Vec::new(alloc),
        };
        for line in 0..reports {
            let letter = b'a' + (line % 4) as u8;
            let alpha = Prefix::of_bytes(&[letter, letter]);
            let (share, _) = gen_(alloc, &Seed([0; 32]), line, 0, &alpha)?;
            input.shares.push(share)?;
            input.live.push(line)?;
        }
        for last in 0..8u8 {
            input
                .candidates
                .push(Prefix::of_bytes(&[b'a', b'a' + last]))?;
        }
        Ok(input)
    }
}

/// Whether each share has so many levels.
fn reach(shares: &[Share], level: u16) -> bool
    ensures { result ≡ true → All (λ s. level ≤ length s.levels) shares.now }
{
    for share in shares {
        if share.levels.as_slice().len() < usize::from(level) {
            return false;
        }
    }
    true
}

/// Whether each candidate has so many bits.
fn are_long(candidates: &[Prefix], level: u16) -> bool
    ensures { result ≡ true → All (λ q. length q ≡ level) candidates.now }
{
    for candidate in candidates {
        if candidate.len() != level {
            return false;
        }
    }
    true
}

/// Whether each place is below a number.
fn are_below(live: &[u32], count: usize) -> bool
    ensures { result ≡ true → All (λ i. i < count) live.now }
{
    for place in live {
        if *place as usize >= count {
            return false;
        }
    }
    true
}

/// The plan of the phase in tiles of 64 reports by 64 candidates, where it is one.
pub fn plan_of(input: &Input) -> Option<PhasePlan<'_>>
    ensures plan { IfSome result (λ plan. IsPhasePlan plan) }
    ensures side { IfSome result (λ plan. plan.side ≡ Zero) }
    ensures shares { IfSome result (λ plan. plan.shares ≡ input.now.shares.items) }
{
    let shares = input.shares.as_slice();
    let live = input.live.as_slice();
    let candidates = input.candidates.as_slice();
    if live.len() > 100_000 || candidates.len() > 8 {
        return None;
    }
    if !(reach(shares, LEVEL) && are_long(candidates, LEVEL) && are_below(live, shares.len())) {
        return None;
    }
    Some(PhasePlan {
        side: Side::Zero,
        kind: Kind::Sketch,
        level: LEVEL,
        verify: Seed([0; 32]),
        shares,
        live,
        candidates,
        tiles: TilePlan::new(live.len() as u32, candidates.len() as u32, 64, 64),
    })
}
