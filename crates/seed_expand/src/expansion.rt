//! The words of a seed's streams, the expansion into children, and the conversion of a child's seed.
//! Each call is the definition of its name, and makes one generator.

ghost use Rattle.std.specs.Prelude.{◌≡◌, ◌+◌, ◌-◌, ◌^◌, ◌≤◌};
ghost use Rattle.definitions.specs.Words.{part, number, seed_xor, extend, convert};

use crate::draws::{at, next, next_number, next_seed};
use crate::{Children, Converted, Seed, Steps};
use rand_chacha::ChaCha20Rng;
use rand_core::SeedableRng;
use std::sync::ledger::Ledger;

/// The seed of the eight words from a place of a stream on, places counted in words from 0.
#[tactic(auto, unfolding(crate::specs::Drawn::eight_at, definitions::specs::Words::part, definitions::specs::Words::word, definitions::specs::Words::word_bytes))]
pub fn part(seed: &Seed, stream: u64, place: u32) -> Seed
    requires place { place ≤ 2 ^ 32 - 8 }
    ensures value { result ≡ part seed.now stream place }
{
    next_seed(&mut at(seed, stream, place))
}

/// The number, below 2^128, of the four words from a place of a stream on, the first word the lowest.
#[tactic(auto, unfolding(crate::specs::Drawn::four_at, definitions::specs::Words::number, definitions::specs::Words::word))]
pub fn number_at(seed: &Seed, stream: u64, place: u32) -> u128
    requires place { place ≤ 2 ^ 32 - 8 }
    ensures value { result ≡ number seed.now stream place }
{
    next_number(&mut at(seed, stream, place))
}

/// The children of a node's seed, before any correction. This is one step of the counter.
#[tactic(auto, unfolding(crate::specs::Drawn::eight_at, definitions::specs::Words::word, definitions::specs::Words::part, definitions::specs::Words::word_bytes))]
pub fn extend<L: Ledger>(seed: &Seed, steps: &mut Steps<L>) -> Children
    ensures value { result ≡ extend seed.now }
    ensures cost { steps.new ≡ steps.old + 1 }
{
    steps.tick();
    let mut rng = ChaCha20Rng::from_seed(seed.0);
    let left = next_seed(&mut rng);
    let right = next_seed(&mut rng);
    let bits = next(&mut rng);
    Children {
        left,
        right,
        bit_left: bits % 2 == 1,
        bit_right: bits / 2 % 2 == 1,
    }
}

/// What a child's corrected seed gives: the seed of the child's own node, and two numbers for its value.
#[tactic(auto, unfolding(crate::specs::Drawn::eight_at, crate::specs::Drawn::four_at, definitions::specs::Words::word, definitions::specs::Words::part, definitions::specs::Words::word_bytes, definitions::specs::Words::number))]
pub fn convert(seed: &Seed) -> Converted
    ensures value { result ≡ convert seed.now }
{
    let mut rng = ChaCha20Rng::from_seed(seed.0);
    rng.set_stream(1);
    let next = next_seed(&mut rng);
    let u = next_number(&mut rng);
    let v = next_number(&mut rng);
    Converted { next, u, v }
}

/// Two seeds, byte by byte.
pub fn xor(left: &Seed, right: &Seed) -> Seed
    ensures value { result ≡ seed_xor left.now right.now }
{
    let mut bytes = left.0;
    for (k, byte) in bytes.iter_mut().enumerate() {
        *byte ^= right.0[k];
    }
    Seed(bytes)
}
