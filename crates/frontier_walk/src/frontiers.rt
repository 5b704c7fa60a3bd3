//! A level's frontier: its candidates, and the bounds of the whole walk.
//! The type keeps what every method needs of them.

ghost use Rattle.std.specs.Prelude.{◌≡◌, ◌≤◌, ◌+◌, IfOk, IfErr, length};
ghost use Rattle.std.specs.List.{All};
ghost use Rattle.definitions.specs.Prefixes.{AreCandidates};
ghost use Rattle.frontier_walk.specs.Frontiers.{first_frontier};
ghost use Rattle.frontier_walk.specs.Outcomes.{pruned, outcome_of, IsCause};

use crate::outcomes::{Next, PruneError};
use crate::pruning::{children, first_candidates, survivor_count, survivors};
use definitions::Sequence;
use field64::Fe;
use prefix_bits::{MOST_BITS, Prefix};
use std::alloc::{AllocError, Global};
use std::marker::Model;

/// The candidates of a level: different prefixes of as many bits as the level's number, at most as many as the cap.
#[derive(Debug, Drop, PartialEq, Eq)]
pub struct Frontier {
    bits: u16,
    cap: u32,
    level: u16,
    candidates: Sequence<Prefix>,
}

impl Model for Frontier {
    ghost use Rattle.frontier_walk.specs.Frontiers.{Frontier as Bounded, IsFrontier};
    ghost use Rattle.prefix_bits.specs.declared.TheConstants.{MOST_BITS};

    ghost Value = { Bounded };

    ghost view = { λ f. record { bits = f.bits; cap = f.cap; level = f.level; candidates = f.candidates } };

    ghost invariant = { λ f. IsFrontier MOST_BITS f.bits f.cap f.level f.candidates };

    ghost inverse = { λ f. record { bits = f.bits; cap = f.cap; level = f.level; candidates = f.candidates } };
}

impl Frontier {
    /// The frontier of level 1, with the candidates (0) and (1), for strings of so many bits, 8 to `MOST_BITS`, and a cap
    /// of 2 to 65536 candidates. `AllocError` is want of memory for the candidates.
    pub fn first(alloc: Global, bits: u16, cap: u32) -> Result<Frontier, AllocError>
        requires bits { (8 ≤ bits) × (bits ≤ MOST_BITS) }
        requires cap { (2 ≤ cap) × (cap ≤ 65536) }
        ensures value { IfOk result (λ frontier. frontier ≡ first_frontier bits cap) }
    {
        Ok(Frontier {
            bits,
            cap,
            level: 1,
            candidates: Sequence::from_vec(first_candidates(alloc)?),
        })
    }

    /// The level, counted from 1, which is at most the number of bits of the strings.
    pub fn level(&self) -> u16
        ensures value { result ≡ self.now.level }
        ensures first { 1 ≤ result }
        ensures last { (result ≤ self.now.bits) × (self.now.bits ≤ MOST_BITS) }
    {
        self.level
    }

    /// The candidates in order: different prefixes of as many bits as the level's number, at most as many as the cap.
    #[tactic(auto, using(crate::proofs::Survivors::candidate_lengths))]
    pub fn candidates(&self) -> &[Prefix]
        ensures value { result.now ≡ self.now.candidates }
        ensures different { AreCandidates self.now.level result.now }
        ensures long { All (λ q. length q ≡ self.now.level) result.now }
        ensures most { (length result.now ≤ self.now.cap) × (self.now.cap ≤ 65536) }
    {
        self.candidates.as_slice()
    }

    /// What follows the level, by one total for each candidate and a threshold of at least 1. The survivors are the
    /// candidates whose total's number is at least the threshold. Without survivors, and at the last level, they are the
    /// answer with their totals; else the next level has both children of each, child 0 first, in order.
    ///
    /// `Cap` comes exactly where it is not the last level and twice the number of survivors, `wanted`, is more than the
    /// cap; it comes before any memory is taken. `Memory` is want of memory for the survivors or their children.
    pub fn prune(&self, alloc: Global, totals: &[Fe], threshold: u64) -> Result<Next, PruneError>
        requires totals { length totals.now ≡ length self.now.candidates }
        requires threshold { 1 ≤ threshold }
        ensures outcome { IfOk result (λ next. outcome_of next ≡ pruned self.now totals.now threshold) }
        ensures cause { IfErr result (λ e. IsCause (pruned self.now totals.now threshold) e) }
    {
        let is_last = self.level == self.bits;
        let wanted = 2 * survivor_count(self.candidates.as_slice(), totals, threshold);
        if !is_last && wanted > self.cap {
            return Err(PruneError::Cap {
                level: self.level,
                wanted,
            });
        }
        let heavy = survivors(alloc, self.candidates.as_slice(), totals, threshold)?;
        if is_last || wanted == 0 {
            return Ok(Next::Done(heavy));
        }
        let candidates = children(alloc, &heavy)?;
        Ok(Next::Level(Frontier {
            bits: self.bits,
            cap: self.cap,
            level: self.level + 1,
            candidates: Sequence::from_vec(candidates),
        }))
    }
}
