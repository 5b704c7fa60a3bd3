//! Three numbers at the front of a stream of many seeds: eight seeds at a time, with the last group filled up where that is quicker
//! than one by one. All seeds are read at one stream's number.

ghost use Rattle.std.specs.Prelude.{◌≡◌, ◌+◌, ◌≤◌, ◌<◌, length, map, take};
ghost use Rattle.seed_lanes.specs.Blocks.{numbers_of};

use crate::groups;
use seed_expand::{Seed, StreamReader};
use std::marker::Model;

/// From so many seeds on a group that is not full is read as one.
const FILLED: usize = 3;

/// Three numbers below 2^128.
#[derive(Clone, Copy, Debug, PartialEq, Eq)]
pub struct Numbers {
    /// That of the words 0 to 3.
    pub first: u128,
    /// That of the words 4 to 7.
    pub second: u128,
    /// That of the words 8 to 11.
    pub third: u128,
}

impl Model for Numbers {
    ghost use Rattle.seed_lanes.specs.Blocks.{Numbers as Read};

    ghost Value = { Read };

    ghost view = { λ n. record { first = n.first; second = n.second; third = n.third } };

    ghost inverse = { λ n. record { first = n.first; second = n.second; third = n.third } };
}

/// The numbers of one seed.
fn numbers_of_one(seed: &Seed, stream: u32) -> Numbers
    ensures value { result ≡ numbers_of stream seed.now }
{
    let mut reader = StreamReader::at(seed, u64::from(stream), 0);
    let first = reader.number();
    let second = reader.number();
    let third = reader.number();
    Numbers {
        first,
        second,
        third,
    }
}

/// The numbers of one more seed, behind those that stand.
#[inline(always)]
fn numbers_at(seeds: &[Seed], stream: u32, out: &mut [Numbers], at: usize)
    requires place { at < length seeds.now }
    requires same { length out.old ≡ length seeds.now }
    requires before { take at out.old ≡ map (numbers_of stream) (take at seeds.now) }
    ensures same { length out.new ≡ length seeds.now }
    ensures after { take (at + 1) out.new ≡ map (numbers_of stream) (take (at + 1) seeds.now) }
{
    out[at] = numbers_of_one(&seeds[at], stream);
}

/// The numbers of up to eight more seeds, behind those that stand.
#[inline(always)]
fn numbers_group(seeds: &[Seed], stream: u32, out: &mut [Numbers], at: usize, count: usize)
    requires few { count ≤ 8 }
    requires place { at + count ≤ length seeds.now }
    requires same { length out.old ≡ length seeds.now }
    requires before { take at out.old ≡ map (numbers_of stream) (take at seeds.now) }
    ensures same { length out.new ≡ length seeds.now }
    ensures after { take (at + count) out.new ≡ map (numbers_of stream) (take (at + count) seeds.now) }
{
    let mut group = [Seed([0; 32]); 8];
    group[..count].copy_from_slice(&seeds[at..at + count]);
    let made = groups::numbers(&group, stream);
    out[at..at + count].copy_from_slice(&made[..count]);
}

/// The numbers of the seeds from a place on, of which there are fewer than eight.
fn numbers_rest(seeds: &[Seed], stream: u32, out: &mut [Numbers], at: usize)
    requires place { at ≤ length seeds.now }
    requires few { length seeds.now < at + 8 }
    requires same { length out.old ≡ length seeds.now }
    requires before { take at out.old ≡ map (numbers_of stream) (take at seeds.now) }
    ensures value { out.new ≡ map (numbers_of stream) seeds.now }
{
    let over = seeds.len() - at;
    if over >= FILLED {
        numbers_group(seeds, stream, out, at, over);
        return;
    }
    for place in at..seeds.len() {
        numbers_at(seeds, stream, out, place);
    }
}

/// The numbers at the front of this stream of each seed, in the seeds' order. The two slices have one length.
pub fn numbers_many(seeds: &[Seed], stream: u32, out: &mut [Numbers])
    requires same { length out.old ≡ length seeds.now }
    ensures value { out.new ≡ map (numbers_of stream) seeds.now }
{
    let whole = seeds.len() / 8;
    for k in 0..whole {
        numbers_group(seeds, stream, out, 8 * k, 8);
    }
    numbers_rest(seeds, stream, out, 8 * whole);
}
