//! What many seeds are converted to: eight at a time, with the last group filled up where that is quicker than one by one.

ghost use Rattle.std.specs.Prelude.{◌≡◌, ◌+◌, ◌≤◌, ◌<◌, length, map, take};
ghost use Rattle.definitions.specs.Words.{convert};

use crate::groups;
use seed_expand::{Converted, Seed, convert};

/// From so many seeds on a group that is not full is converted as one.
const FILLED: usize = 3;

/// What one more seed is converted to, behind those that stand.
#[inline(always)]
fn convert_at(seeds: &[Seed], out: &mut [Converted], at: usize)
    requires place { at < length seeds.now }
    requires same { length out.old ≡ length seeds.now }
    requires before { take at out.old ≡ map convert (take at seeds.now) }
    ensures same { length out.new ≡ length seeds.now }
    ensures after { take (at + 1) out.new ≡ map convert (take (at + 1) seeds.now) }
{
    out[at] = convert(&seeds[at]);
}

/// What up to eight more seeds are converted to, behind those that stand.
#[inline(always)]
fn convert_group(seeds: &[Seed], out: &mut [Converted], at: usize, count: usize)
    requires few { count ≤ 8 }
    requires place { at + count ≤ length seeds.now }
    requires same { length out.old ≡ length seeds.now }
    requires before { take at out.old ≡ map convert (take at seeds.now) }
    ensures same { length out.new ≡ length seeds.now }
    ensures after { take (at + count) out.new ≡ map convert (take (at + count) seeds.now) }
{
    let mut group = [Seed([0; 32]); 8];
    group[..count].copy_from_slice(&seeds[at..at + count]);
    let made = groups::convert(&group);
    out[at..at + count].copy_from_slice(&made[..count]);
}

/// What the seeds from a place on are converted to, of which there are fewer than eight.
fn convert_rest(seeds: &[Seed], out: &mut [Converted], at: usize)
    requires place { at ≤ length seeds.now }
    requires few { length seeds.now < at + 8 }
    requires same { length out.old ≡ length seeds.now }
    requires before { take at out.old ≡ map convert (take at seeds.now) }
    ensures value { out.new ≡ map convert seeds.now }
{
    let over = seeds.len() - at;
    if over >= FILLED {
        convert_group(seeds, out, at, over);
        return;
    }
    for place in at..seeds.len() {
        convert_at(seeds, out, place);
    }
}

/// What each seed is converted to, in the seeds' order. The two slices have one length.
pub fn convert_many(seeds: &[Seed], out: &mut [Converted])
    requires same { length out.old ≡ length seeds.now }
    ensures value { out.new ≡ map convert seeds.now }
{
    let whole = seeds.len() / 8;
    for k in 0..whole {
        convert_group(seeds, out, 8 * k, 8);
    }
    convert_rest(seeds, out, 8 * whole);
}
