//! What is timed: shares of key generation, and pairs of candidates.
//! Numbers are drawn from a fixed seed, so that each run is over the same input.

ghost use Rattle.std.specs.Prelude.{◌≡◌, length, IsTrue};
ghost use Rattle.idpf_lanes.specs.Stands.{AreLong};

use idpf_eval::Share;
use idpf_gen::gen_;
use prefix_bits::Prefix;
use seed_expand::Seed;
use std::alloc::{AllocError, Global};

/// The number behind one, by shifts and exclusive ors.
fn next_number(number: u32) -> u32 {
    let mut x = number;
    x ^= x << 13;
    x ^= x >> 17;
    x ^= x << 5;
    x
}

/// Side 0's shares of so many strings of 4 bytes.
pub fn shares_of(alloc: Global, count: u32) -> Result<Vec<Share>, AllocError> {
    let mut shares = Vec::new(alloc);
    let mut number = 0x9e37_79b9;
    for line in 0..count {
        number = next_number(number);
        let bytes = number.to_le_bytes();
        let alpha = Prefix::of_bytes(&bytes);
        let (share, _) = gen_(alloc, &Seed([0; 32]), line, 0, &alpha)?;
        shares.push(share)?;
    }
    Ok(shares)
}

/// The first bits of a number, the highest first.
fn front_of(number: u32, bits: u16) -> Prefix {
    let mut front = Prefix::empty();
    for place in 0..bits.min(32) {
        front = front.child(number << place >> 31 == 1);
    }
    front
}

/// Both children of so many fronts at most, all different, one bit shorter than the level; ascending.
pub fn candidates(alloc: Global, level: u16, count: u32) -> Result<Vec<Prefix>, AllocError> {
    let mut fronts: Vec<Prefix> = Vec::new(alloc);
    let mut number = 0x1234_5678;
    for _ in 0..count {
        number = next_number(number);
        let front = front_of(number, level.saturating_sub(1));
        if fronts.iter().all(|other| *other != front) {
            fronts.push(front)?;
        }
    }
    fronts.sort()?;
    let mut children = Vec::new(alloc);
    for front in &fronts {
        if front.len() < 32 {
            children.push(front.child(false))?;
            children.push(front.child(true))?;
        }
    }
    Ok(children)
}

/// Whether each prefix has so many bits.
pub fn are_long(prefixes: &[Prefix], level: u16) -> bool
    ensures { IsTrue result → AreLong level prefixes.now }
{
    for k in 0..prefixes.len() {
        let prefix = &prefixes[k];
        if prefix.len() != level {
            return false;
        }
    }
    true
}
