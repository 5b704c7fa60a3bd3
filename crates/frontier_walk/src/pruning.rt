//! The steps of pruning: how many candidates survive, the survivors, and the children of these.
//! Each is the definition of its name over lists.

ghost use Rattle.std.specs.Prelude.{◌≡◌, ◌<◌, ◌≤◌, ◌^◌, IfOk, length};
ghost use Rattle.std.specs.List.{All};
ghost use Rattle.walk_definitions.specs.Walk.{survivors, children, first_candidates};
ghost use Rattle.prefix_bits.specs.declared.TheConstants.{MOST_BITS};

use crate::heavies::Heavy;
use field64::Fe;
use prefix_bits::Prefix;
use std::alloc::{AllocError, Global};

/// How many candidates have a total of at least the threshold.
#[tactic(auto, using(crate::proofs::Survivors::survivor_steps))]
pub fn survivor_count(candidates: &[Prefix], totals: &[Fe], threshold: u64) -> u32
    requires totals { length totals.now ≡ length candidates.now }
    requires few { length candidates.now ≤ 65536 }
    ensures value { result ≡ length (survivors threshold candidates.now totals.now) }
    ensures most { result ≤ length candidates.now }
{
    let mut count = 0;
    for total in totals {
        if total.number() >= threshold {
            count += 1;
        }
    }
    count
}

/// The candidates with a total of at least the threshold, in order, with their totals. `AllocError` is want of memory
/// for them.
pub fn survivors(
    alloc: Global,
    candidates: &[Prefix],
    totals: &[Fe],
    threshold: u64,
) -> Result<Vec<Heavy>, AllocError>
    requires totals { length totals.now ≡ length candidates.now }
    ensures value { IfOk result (λ found. found.items ≡ survivors threshold candidates.now totals.now) }
{
    let mut found = Vec::new(alloc);
    for (place, prefix) in candidates.iter().enumerate() {
        let count = totals[place];
        if count.number() >= threshold {
            found.push(Heavy {
                prefix: *prefix,
                count,
            })?;
        }
    }
    Ok(found)
}

/// Both children of each survivor, child 0 first, in order. `AllocError` is want of memory for them.
pub fn children(alloc: Global, found: &[Heavy]) -> Result<Vec<Prefix>, AllocError>
    requires room { All (λ h. length h.prefix < MOST_BITS) found.now }
    ensures value { IfOk result (λ next. next.items ≡ children found.now) }
{
    let mut next = Vec::new(alloc);
    for heavy in found {
        next.push(heavy.prefix.child(false))?;
        next.push(heavy.prefix.child(true))?;
    }
    Ok(next)
}

/// The candidates of level 1, (0) and (1). `AllocError` is want of memory for them.
pub fn first_candidates(alloc: Global) -> Result<Vec<Prefix>, AllocError>
    ensures value { IfOk result (λ next. next.items ≡ first_candidates) }
{
    let root = Prefix::empty();
    let mut next = Vec::with_capacity(alloc, 2)?;
    next.push(root.child(false))?;
    next.push(root.child(true))?;
    Ok(next)
}
