//! A seed as the words of a key, and the words of a block as seeds, bits and numbers.
//! Each word is read and written with its lowest byte first.

ghost use Rattle.std.specs.Prelude.{◌≡◌, ℕ, ◌+◌, ◌*◌, ◌/◌, ◌%◌, ◌^◌, ◌==◌, ◌<◌, [], ◌∷◌, slice_index};
ghost use Rattle.rand_chacha.specs.ChaCha.{key_of, seed_of};
ghost use Rattle.seed_lanes.specs.Blocks.{children_from, converted_from, number_from, numbers_from};

use crate::numbers::Numbers;
use rand_core::utils::read_u32;
use seed_expand::{Children, Converted, Seed};

/// The eight words of a seed, as a key has them.
#[inline(always)]
pub(crate) fn words_of(seed: &Seed) -> [u32; 8]
    ensures { result ≡ key_of seed.now }
{
    [
        read_u32(&seed.0, 0),
        read_u32(&seed.0, 1),
        read_u32(&seed.0, 2),
        read_u32(&seed.0, 3),
        read_u32(&seed.0, 4),
        read_u32(&seed.0, 5),
        read_u32(&seed.0, 6),
        read_u32(&seed.0, 7),
    ]
}

/// A seed of eight words, each with its lowest byte first.
#[inline(always)]
fn seed_from(words: [u32; 8]) -> Seed
    ensures { result ≡ seed_of words }
{
    let mut bytes = [0; 32];
    bytes[0..4].copy_from_slice(&words[0].to_le_bytes());
    bytes[4..8].copy_from_slice(&words[1].to_le_bytes());
    bytes[8..12].copy_from_slice(&words[2].to_le_bytes());
    bytes[12..16].copy_from_slice(&words[3].to_le_bytes());
    bytes[16..20].copy_from_slice(&words[4].to_le_bytes());
    bytes[20..24].copy_from_slice(&words[5].to_le_bytes());
    bytes[24..28].copy_from_slice(&words[6].to_le_bytes());
    bytes[28..32].copy_from_slice(&words[7].to_le_bytes());
    Seed(bytes)
}

/// The number of four words, the first word the lowest.
#[inline(always)]
fn number_from(low: u32, second: u32, third: u32, high: u32) -> u128
    ensures { result ≡ low + second * 2 ^ 32 + third * 2 ^ 64 + high * 2 ^ 96 }
{
    u128::from(low)
        + (u128::from(second) << 32)
        + (u128::from(third) << 64)
        + (u128::from(high) << 96)
}

/// The children that the sixteen words of a block and the word behind them give.
#[inline(always)]
pub(crate) fn children_from(words: [u32; 16], bits: u32) -> Children
    ensures { result ≡ children_from words bits }
{
    let [
        w0,
        w1,
        w2,
        w3,
        w4,
        w5,
        w6,
        w7,
        w8,
        w9,
        w10,
        w11,
        w12,
        w13,
        w14,
        w15,
    ] = words;
    Children {
        left: seed_from([w0, w1, w2, w3, w4, w5, w6, w7]),
        right: seed_from([w8, w9, w10, w11, w12, w13, w14, w15]),
        bit_left: bits % 2 == 1,
        bit_right: bits / 2 % 2 == 1,
    }
}

/// The seed and the two numbers that the sixteen words of a block give.
#[inline(always)]
pub(crate) fn converted_from(words: [u32; 16]) -> Converted
    ensures { result ≡ converted_from words }
{
    let [
        w0,
        w1,
        w2,
        w3,
        w4,
        w5,
        w6,
        w7,
        w8,
        w9,
        w10,
        w11,
        w12,
        w13,
        w14,
        w15,
    ] = words;
    Converted {
        next: seed_from([w0, w1, w2, w3, w4, w5, w6, w7]),
        u: number_from(w8, w9, w10, w11),
        v: number_from(w12, w13, w14, w15),
    }
}

/// The three numbers that the sixteen words of a block give.
#[inline(always)]
pub(crate) fn numbers_from(words: [u32; 16]) -> Numbers
    ensures { result ≡ numbers_from words }
{
    Numbers {
        first: number_from(words[0], words[1], words[2], words[3]),
        second: number_from(words[4], words[5], words[6], words[7]),
        third: number_from(words[8], words[9], words[10], words[11]),
    }
}
