//! The children of many seeds: eight at a time, with the last group filled up where that is quicker than one by one.
//! The counter of `seed_expand` stays with single seeds: nothing is counted here.

ghost use Rattle.std.specs.Prelude.{◌≡◌, ◌+◌, ◌≤◌, ◌<◌, length, map, take};
ghost use Rattle.definitions.specs.Words.{extend};

use crate::groups;
use seed_expand::{Children, Seed, Steps, extend};
use std::marker::Brand;
use std::sync::ledger::{Blank, Ledger};

/// From so many seeds on a group that is not full is expanded as one.
const FILLED: usize = 5;

/// The children of a seed, with a counter of the caller's blank.
fn extend_on<L: Ledger>(seed: &Seed, blank: Blank) -> Children
    requires name { blank.name ≡ L.name }
    requires parts { blank.parts ≡ L.parts }
    requires some { 0 < blank.parts }
    ensures value { result ≡ extend seed.now }
{
    extend(seed, &mut Steps::<L>::open(blank))
}

/// The children of one seed, uncounted.
fn extend_one(seed: &Seed) -> Children
    ensures value { result ≡ extend seed.now }
{
    extend_on::<Brand>(seed, Blank::new(1))
}

/// The children of one more seed, behind those that stand.
#[inline(always)]
fn extend_at(seeds: &[Seed], out: &mut [Children], at: usize)
    requires place { at < length seeds.now }
    requires same { length out.old ≡ length seeds.now }
    requires before { take at out.old ≡ map extend (take at seeds.now) }
    ensures same { length out.new ≡ length seeds.now }
    ensures after { take (at + 1) out.new ≡ map extend (take (at + 1) seeds.now) }
{
    out[at] = extend_one(&seeds[at]);
}

/// The children of up to eight more seeds, behind those that stand.
#[inline(always)]
fn extend_group(seeds: &[Seed], out: &mut [Children], at: usize, count: usize)
    requires few { count ≤ 8 }
    requires place { at + count ≤ length seeds.now }
    requires same { length out.old ≡ length seeds.now }
    requires before { take at out.old ≡ map extend (take at seeds.now) }
    ensures same { length out.new ≡ length seeds.now }
    ensures after { take (at + count) out.new ≡ map extend (take (at + count) seeds.now) }
{
    let mut group = [Seed([0; 32]); 8];
    group[..count].copy_from_slice(&seeds[at..at + count]);
    let made = groups::extend(&group);
    out[at..at + count].copy_from_slice(&made[..count]);
}

/// The children of the seeds from a place on, of which there are fewer than eight.
fn extend_rest(seeds: &[Seed], out: &mut [Children], at: usize)
    requires place { at ≤ length seeds.now }
    requires few { length seeds.now < at + 8 }
    requires same { length out.old ≡ length seeds.now }
    requires before { take at out.old ≡ map extend (take at seeds.now) }
    ensures value { out.new ≡ map extend seeds.now }
{
    let over = seeds.len() - at;
    if over >= FILLED {
        extend_group(seeds, out, at, over);
        return;
    }
    for place in at..seeds.len() {
        extend_at(seeds, out, place);
    }
}

/// The children of each seed, before any correction, in the seeds' order. The two slices have one length.
pub fn extend_many(seeds: &[Seed], out: &mut [Children])
    requires same { length out.old ≡ length seeds.now }
    ensures value { out.new ≡ map extend seeds.now }
{
    let whole = seeds.len() / 8;
    for k in 0..whole {
        extend_group(seeds, out, 8 * k, 8);
    }
    extend_rest(seeds, out, 8 * whole);
}
