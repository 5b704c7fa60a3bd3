//! The input of a trial: shares made of one byte each or of strings, a plan of them whose conditions are tried, and its plain sums.
//! All reports are live.

ghost use Rattle.std.specs.Prelude.{◌≡◌, ◌<◌, ◌≤◌, true, length, IfSome};
ghost use Rattle.std.specs.List.{All};
ghost use Rattle.phase_state.specs.Sums.{IsPhasePlan};

use definitions::Sequence;
use field64::Fe;
use idpf_eval::{LevelWord, Node, Share, eval_uncounted};
use idpf_gen::gen_;
use phase_state::{Kind, PhasePlan};
use prefix_bits::{Prefix, ReportId, Side};
use report_batch::batch_of;
use seed_expand::Seed;
use sketch_check::{CoinKey, Sums};
use std::alloc::{AllocError, Global};
use tile_claims::TilePlan;

/// The seed of the check's coins in the trials of shares that are made of one byte each.
const VERIFY: Seed = Seed([7; 32]);

/// The seed that the strings' reports are made of.
const MASTER: Seed = Seed([
    0, 1, 2, 3, 4, 5, 6, 7, 8, 9, 10, 11, 12, 13, 14, 15, 16, 17, 18, 19, 20, 21, 22, 23, 24, 25,
    26, 27, 28, 29, 30, 31,
]);

/// How a trial is cut into tiles.
#[derive(Clone, Copy, Debug, PartialEq, Eq)]
pub enum Cut {
    /// A tile for each report and candidate.
    Single,
    /// Tiles of two reports by three candidates.
    Small,
    /// Tiles of 64 reports by 64 candidates.
    Large,
}

/// Shares, their places, the candidates of a level, and the seed of the check's coins.
#[derive(Drop)]
pub struct Trial {
    pub level: u16,
    pub verify: Seed,
    pub shares: Vec<Share>,
    pub live: Vec<u32>,
    pub candidates: Vec<Prefix>,
}

fn share_of(alloc: Global, byte: u8) -> Result<Share, AllocError> {
    let word = LevelWord {
        seed: Seed([byte; 32]),
        left: false,
        right: true,
        u: Fe::one(),
        v: Fe::from_u128(u128::from(byte)),
        a: Fe::zero(),
        b: Fe::zero(),
    };
    Ok(Share {
        id: ReportId::of(1, u64::from(byte)),
        root: Seed([byte; 32]),
        corr: Seed([0; 32]),
        levels: Sequence::from_vec(vec![in alloc; word; 8]?),
    })
}

/// The bits of a number below 8.
fn prefix_of(number: u8) -> Prefix {
    Prefix::empty()
        .child(number & 4 != 0)
        .child(number & 2 != 0)
        .child(number & 1 != 0)
}

impl Trial {
    /// So many reports, and candidates of level 3.
    pub fn new(alloc: Global, reports: u8, candidates: u8) -> Result<Trial, AllocError> {
        let mut trial = Trial {
            level: 3,
            verify: VERIFY,
            shares: Vec::new(alloc),
            live: Vec::new(alloc),
            candidates: Vec::new(alloc),
        };
        for number in 0..reports {
            trial.shares.push(share_of(alloc, number)?)?;
            trial.live.push(u32::from(number))?;
        }
        for number in 0..candidates {
            trial.candidates.push(prefix_of(number))?;
        }
        Ok(trial)
    }

    /// One report, and both candidates of level 1.
    pub fn at_the_first_level(alloc: Global) -> Result<Trial, AllocError> {
        let mut trial = Trial {
            level: 1,
            verify: VERIFY,
            shares: Vec::new(alloc),
            live: Vec::new(alloc),
            candidates: Vec::new(alloc),
        };
        trial.shares.push(share_of(alloc, 0)?)?;
        trial.live.push(0)?;
        trial.candidates.push(Prefix::empty().child(false))?;
        trial.candidates.push(Prefix::empty().child(true))?;
        Ok(trial)
    }

    /// A side's shares of the batch of the reports that key generation makes of the strings `ab`, `ab` and `ac`, all live, and
    /// both candidates of level 1. The check's coins are those of the zero seed.
    pub fn of_three_strings(alloc: Global, side: Side) -> Result<Trial, AllocError> {
        let (mut zero, mut one) = (Vec::new(alloc), Vec::new(alloc));
        for (line, last) in [(0, b'b'), (1, b'b'), (2, b'c')] {
            let alpha = Prefix::of_bytes(&[b'a', last]);
            let (share0, share1) = gen_(alloc, &MASTER, line, 0, &alpha)?;
            zero.push(share0)?;
            one.push(share1)?;
        }
        let batch = batch_of(alloc, zero, one)?;
        let mut trial = Trial {
            level: 1,
            verify: Seed([0; 32]),
            shares: Vec::new(alloc),
            live: Vec::from_array(alloc, [0, 1, 2])?,
            candidates: Vec::new(alloc),
        };
        for share in batch.shares(side) {
            trial.shares.push(share.copy(alloc)?)?;
        }
        trial.candidates.push(Prefix::empty().child(false))?;
        trial.candidates.push(Prefix::empty().child(true))?;
        Ok(trial)
    }

    /// The first share's node at a prefix, by the plain evaluation, where it has so many levels.
    pub fn first_node(&self, side: Side, prefix: &Prefix) -> Option<Node> {
        let share = self.shares.first()?;
        if share.levels.as_slice().len() < usize::from(prefix.len()) {
            return None;
        }
        Some(eval_uncounted(share, side, prefix))
    }

    /// The total at a candidate, by a plain loop.
    pub fn total(&self, side: Side, candidate: &Prefix) -> Fe {
        let mut sum = Fe::zero();
        for share in &self.shares {
            if share.levels.as_slice().len() >= usize::from(candidate.len()) {
                sum = sum.add(eval_uncounted(share, side, candidate).d);
            }
        }
        sum
    }

    /// The sums of a share over all candidates, by a plain loop with the coins of their places.
    pub fn sums(&self, side: Side, share: &Share) -> Sums {
        let key = CoinKey::of(&self.verify, &share.id);
        let mut sums = Sums::zero();
        for (place, candidate) in self.candidates.iter().enumerate() {
            if place < 8 && share.levels.as_slice().len() >= usize::from(candidate.len()) {
                let node = eval_uncounted(share, side, candidate);
                sums = sums.with(key.coin(self.level, place as u32), node.d, node.e);
            }
        }
        sums
    }

    //// Whether these are the totals of all candidates, by plain loops.
    pub fn has_totals(&self, side: Side, totals: &[Fe]) -> bool {
        let mut same = totals.len() == self.candidates.len();
        for (total, candidate) in totals.iter().zip(&self.candidates) {
            same &= *total == self.total(side, candidate);
        }
        same
    }

    //// Whether these are the sums of all shares, by plain loops.
    pub fn has_sums(&self, side: Side, sums: &[Sums]) -> bool {
        let mut same = sums.len() == self.shares.len();
        for (sum, share) in sums.iter().zip(&self.shares) {
            same &= *sum == self.sums(side, share);
        }
        same
    }
}

/// Whether each share has so many levels.
fn reach(shares: &[Share], level: u16) -> bool
    ensures { result ≡ true → All (λ s. level ≤ length s.levels) shares.now }
{
    for share in shares {
        if share.levels.as_slice().len() < usize::from(level) {
            return false;
        }
    }
    true
}

/// Whether each candidate has so many bits.
fn are_long(candidates: &[Prefix], level: u16) -> bool
    ensures { result ≡ true → All (λ q. length q ≡ level) candidates.now }
{
    for candidate in candidates {
        if candidate.len() != level {
            return false;
        }
    }
    true
}

/// Whether each place is below a number.
fn are_below(live: &[u32], count: usize) -> bool
    ensures { result ≡ true → All (λ i. i < count) live.now }
{
    for place in live {
        if *place as usize >= count {
            return false;
        }
    }
    true
}

/// The plan of a trial at its level, cut so, where it is one.
pub fn plan_of(trial: &Trial, side: Side, kind: Kind, cut: Cut) -> Option<PhasePlan<'_>>
    ensures plan { IfSome result (λ plan. IsPhasePlan plan) }
    ensures side { IfSome result (λ plan. plan.side ≡ side) }
    ensures shares { IfSome result (λ plan. plan.shares ≡ trial.now.shares.items) }
{
    let shares = trial.shares.as_slice();
    let live = trial.live.as_slice();
    let candidates = trial.candidates.as_slice();
    if live.len() > 100 || candidates.len() > 8 {
        return None;
    }
    let level = trial.level;
    if !(reach(shares, level) && are_long(candidates, level) && are_below(live, shares.len())) {
        return None;
    }
    let (reports, count) = (live.len() as u32, candidates.len() as u32);
    let tiles = match cut {
        Cut::Single => TilePlan::new(reports, count, 1, 1),
        Cut::Small => TilePlan::new(reports, count, 2, 3),
        Cut::Large => TilePlan::new(reports, count, 64, 64),
    };
    Some(PhasePlan {
        side,
        kind,
        level,
        verify: trial.verify,
        shares,
        live,
        candidates,
        tiles,
    })
}
