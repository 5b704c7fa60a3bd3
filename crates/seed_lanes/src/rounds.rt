//! The block function of ChaCha20 for eight keys at once: each word of the state is a vector with a lane for each key.
//! What a lane holds is the block that `rand_chacha` defines.

ghost use Rattle.std.specs.Prelude.{◌≡◌, ℕ, ◌<◌, slice_index};
ghost use Rattle.rand_chacha.specs.Block.{add32, xor_rotate, quarter_round, column_round, diagonal_round, initial_state};
ghost use Rattle.rand_chacha.specs.Lanes.{lane};
ghost use Rattle.seed_lanes.specs.Blocks.{key_lane, block_of};

use std::simd::u32x8;

/// One word of each key's state.
pub(crate) type Lanes = u32x8;

/// Lane by lane, the sum modulo 2^32.
#[inline(always)]
fn add(a: Lanes, b: Lanes) -> Lanes
    ensures { (j : ℕ) → j < 8 → slice_index result j ≡ add32 (slice_index a j) (slice_index b j) }
{
    a + b
}

/// Lane by lane, the exclusive or, rotated to the left by so many bits.
#[inline(always)]
fn xor_rotate(a: Lanes, b: Lanes, k: u32) -> Lanes
    requires { (0 < k) × (k < 32) }
    ensures { (j : ℕ) → j < 8 → slice_index result j ≡ xor_rotate (slice_index a j) (slice_index b j) k }
{
    let x = a ^ b;
    (x << Lanes::splat(k)) | (x >> Lanes::splat(32 - k))
}

/// Lane by lane, the quarter round.
#[inline(always)]
fn quarter_round(a: Lanes, b: Lanes, c: Lanes, d: Lanes) -> (Lanes, Lanes, Lanes, Lanes)
    ensures { (j : ℕ) → j < 8
        → (slice_index result.0 j, slice_index result.1 j, slice_index result.2 j, slice_index result.3 j)
        ≡ quarter_round (slice_index a j) (slice_index b j) (slice_index c j) (slice_index d j) }
{
    let a1 = add(a, b);
    let d1 = xor_rotate(d, a1, 16);
    let c1 = add(c, d1);
    let b1 = xor_rotate(b, c1, 12);
    let a2 = add(a1, b1);
    let d2 = xor_rotate(d1, a2, 8);
    let c2 = add(c1, d2);
    let b2 = xor_rotate(b1, c2, 7);
    (a2, b2, c2, d2)
}

/// Lane by lane, the four columns, then the four diagonals.
#[inline(always)]
fn double_round(x: [Lanes; 16]) -> [Lanes; 16]
    ensures { (j : ℕ) → j < 8 → lane j result ≡ diagonal_round (column_round (lane j x)) }
{
    let [
        x0,
        x1,
        x2,
        x3,
        x4,
        x5,
        x6,
        x7,
        x8,
        x9,
        x10,
        x11,
        x12,
        x13,
        x14,
        x15,
    ] = x;
    let (x0, x4, x8, x12) = quarter_round(x0, x4, x8, x12);
    let (x1, x5, x9, x13) = quarter_round(x1, x5, x9, x13);
    let (x2, x6, x10, x14) = quarter_round(x2, x6, x10, x14);
    let (x3, x7, x11, x15) = quarter_round(x3, x7, x11, x15);
    let (x0, x5, x10, x15) = quarter_round(x0, x5, x10, x15);
    let (x1, x6, x11, x12) = quarter_round(x1, x6, x11, x12);
    let (x2, x7, x8, x13) = quarter_round(x2, x7, x8, x13);
    let (x3, x4, x9, x14) = quarter_round(x3, x4, x9, x14);
    [
        x0, x1, x2, x3, x4, x5, x6, x7, x8, x9, x10, x11, x12, x13, x14, x15,
    ]
}

/// The states before the rounds.
#[inline(always)]
fn first(key: &[Lanes; 8], counter: u32, nonce: u32) -> [Lanes; 16]
    ensures { (j : ℕ) → j < 8 → lane j result ≡ initial_state (key_lane j key.now) counter nonce }
{
    [
        Lanes::splat(0x6170_7865),
        Lanes::splat(0x3320_646e),
        Lanes::splat(0x7962_2d32),
        Lanes::splat(0x6b20_6574),
        key[0],
        key[1],
        key[2],
        key[3],
        key[4],
        key[5],
        key[6],
        key[7],
        Lanes::splat(counter),
        Lanes::splat(0),
        Lanes::splat(nonce),
        Lanes::splat(0),
    ]
}

/// The blocks of eight keys at one counter and nonce: lane j of each word belongs to key j.
pub(crate) fn block(key: &[Lanes; 8], counter: u32, nonce: u32) -> [Lanes; 16]
    ensures { (j : ℕ) → j < 8 → lane j result ≡ block_of (key_lane j key.now) counter nonce }
{
    let first = first(key, counter, nonce);
    let mut x = first;
    'rounds: for _round in 0..10u32 {
        x = double_round(x);
    }
    let [
        x0,
        x1,
        x2,
        x3,
        x4,
        x5,
        x6,
        x7,
        x8,
        x9,
        x10,
        x11,
        x12,
        x13,
        x14,
        x15,
    ] = x;
    let [
        f0,
        f1,
        f2,
        f3,
        f4,
        f5,
        f6,
        f7,
        f8,
        f9,
        f10,
        f11,
        f12,
        f13,
        f14,
        f15,
    ] = first;
    [
        add(x0, f0),
        add(x1, f1),
        add(x2, f2),
        add(x3, f3),
        add(x4, f4),
        add(x5, f5),
        add(x6, f6),
        add(x7, f7),
        add(x8, f8),
        add(x9, f9),
        add(x10, f10),
        add(x11, f11),
        add(x12, f12),
        add(x13, f13),
        add(x14, f14),
        add(x15, f15),
    ]
}
