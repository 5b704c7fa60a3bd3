//! Eight seeds at once: the blocks that `extend`, `convert` and numbers are read from, a lane for each seed.

ghost use Rattle.std.specs.Prelude.{◌≡◌, ℕ, ◌<◌, [], map, slice_index_or};
ghost use Rattle.rand_chacha.specs.Lanes.{lane};
ghost use Rattle.rand_chacha.specs.ChaCha.{key_of};
ghost use Rattle.definitions.specs.Words.{extend, convert};
ghost use Rattle.seed_lanes.specs.Blocks.{key_lane, numbers_of};

use crate::numbers::Numbers;
use crate::rounds::{Lanes, block};
use crate::words::{children_from, converted_from, numbers_from, words_of};
use seed_expand::{Children, Converted, Seed};

/// The keys of the seeds, word by word: lane j of each word belongs to seed j.
#[inline(always)]
fn keys(seeds: &[Seed; 8]) -> [Lanes; 8]
    ensures { (j : ℕ) → j < 8 → key_lane j result ≡ key_of (slice_index_or seeds.now j []) }
{
    let [a0, a1, a2, a3, a4, a5, a6, a7] = words_of(&seeds[0]);
    let [b0, b1, b2, b3, b4, b5, b6, b7] = words_of(&seeds[1]);
    let [c0, c1, c2, c3, c4, c5, c6, c7] = words_of(&seeds[2]);
    let [d0, d1, d2, d3, d4, d5, d6, d7] = words_of(&seeds[3]);
    let [e0, e1, e2, e3, e4, e5, e6, e7] = words_of(&seeds[4]);
    let [f0, f1, f2, f3, f4, f5, f6, f7] = words_of(&seeds[5]);
    let [g0, g1, g2, g3, g4, g5, g6, g7] = words_of(&seeds[6]);
    let [h0, h1, h2, h3, h4, h5, h6, h7] = words_of(&seeds[7]);
    [
        Lanes::from_array([a0, b0, c0, d0, e0, f0, g0, h0]),
        Lanes::from_array([a1, b1, c1, d1, e1, f1, g1, h1]),
        Lanes::from_array([a2, b2, c2, d2, e2, f2, g2, h2]),
        Lanes::from_array([a3, b3, c3, d3, e3, f3, g3, h3]),
        Lanes::from_array([a4, b4, c4, d4, e4, f4, g4, h4]),
        Lanes::from_array([a5, b5, c5, d5, e5, f5, g5, h5]),
        Lanes::from_array([a6, b6, c6, d6, e6, f6, g6, h6]),
        Lanes::from_array([a7, b7, c7, d7, e7, f7, g7, h7]),
    ]
}

/// The words of one lane.
#[inline(always)]
fn words_at(x: &[Lanes; 16], j: usize) -> [u32; 16]
    requires { j < 8 }
    ensures { result ≡ lane j x.now }
{
    [
        x[0].to_array()[j],
        x[1].to_array()[j],
        x[2].to_array()[j],
        x[3].to_array()[j],
        x[4].to_array()[j],
        x[5].to_array()[j],
        x[6].to_array()[j],
        x[7].to_array()[j],
        x[8].to_array()[j],
        x[9].to_array()[j],
        x[10].to_array()[j],
        x[11].to_array()[j],
        x[12].to_array()[j],
        x[13].to_array()[j],
        x[14].to_array()[j],
        x[15].to_array()[j],
    ]
}

/// The children of eight seeds.
pub(crate) fn extend(seeds: &[Seed; 8]) -> [Children; 8]
    ensures { result ≡ map extend seeds.now }
{
    let key = keys(seeds);
    let words = block(&key, 0, 0);
    let bits = block(&key, 1, 0)[0].to_array();
    [
        children_from(words_at(&words, 0), bits[0]),
        children_from(words_at(&words, 1), bits[1]),
        children_from(words_at(&words, 2), bits[2]),
        children_from(words_at(&words, 3), bits[3]),
        children_from(words_at(&words, 4), bits[4]),
        children_from(words_at(&words, 5), bits[5]),
        children_from(words_at(&words, 6), bits[6]),
        children_from(words_at(&words, 7), bits[7]),
    ]
}

/// What eight seeds are converted to.
pub(crate) fn convert(seeds: &[Seed; 8]) -> [Converted; 8]
    ensures { result ≡ map convert seeds.now }
{
    let words = block(&keys(seeds), 0, 1);
    [
        converted_from(words_at(&words, 0)),
        converted_from(words_at(&words, 1)),
        converted_from(words_at(&words, 2)),
        converted_from(words_at(&words, 3)),
        converted_from(words_at(&words, 4)),
        converted_from(words_at(&words, 5)),
        converted_from(words_at(&words, 6)),
        converted_from(words_at(&words, 7)),
    ]
}

/// The numbers at the front of a stream of eight seeds.
pub(crate) fn numbers(seeds: &[Seed; 8], stream: u32) -> [Numbers; 8]
    ensures { result ≡ map (numbers_of stream) seeds.now }
{
    let words = block(&keys(seeds), 0, stream);
    [
        numbers_from(words_at(&words, 0)),
        numbers_from(words_at(&words, 1)),
        numbers_from(words_at(&words, 2)),
        numbers_from(words_at(&words, 3)),
        numbers_from(words_at(&words, 4)),
        numbers_from(words_at(&words, 5)),
        numbers_from(words_at(&words, 6)),
        numbers_from(words_at(&words, 7)),
    ]
}
