//! Which live reports stay live after a level's check.
//! Those stay whose sigmas add up to 0.

ghost use Rattle.std.specs.Prelude.{◌≡◌, ◌<◌, ◌≤◌, ℕ, List, IfOk, length};
ghost use Rattle.std.specs.List.{All};
ghost use Rattle.walk_definitions.specs.Reports.{Report};
ghost use Rattle.walk_definitions.specs.Heard.{kept};
ghost use Rattle.pair_run.specs.Places.{picked};

use field64::Fe;
use std::alloc::{AllocError, Global};

/// The places of the live reports whose number is 0, in order. `AllocError` is want of memory.
pub fn kept_places(alloc: Global, live: &[u32], numbers: &[Fe]) -> Result<Vec<u32>, AllocError>
    requires count { length numbers.now ≡ length live.now }
    ensures kept { IfOk result (λ still. (batch : List Report) → All (λ k. k < length batch) live.now
        → picked batch still.items ≡ kept (picked batch live.now) numbers.now) }
    ensures among { IfOk result (λ still. (n : ℕ) → All (λ k. k < n) live.now → All (λ k. k < n) still.items) }
    ensures most { IfOk result (λ still. length still.items ≤ length live.now) }
{
    let mut still = Vec::new(alloc);
    for (k, place) in live.iter().enumerate() {
        if numbers[k] == Fe::zero() {
            still.push(*place)?;
        }
    }
    Ok(still)
}
