//! The places of a whole batch.
//! Before the first level every report is live.

ghost use Rattle.std.specs.Prelude.{◌≡◌, ◌<◌, List, IfOk, length};
ghost use Rattle.std.specs.List.{All};
ghost use Rattle.walk_definitions.specs.Reports.{Report};
ghost use Rattle.pair_run.specs.Places.{picked};

use std::alloc::{AllocError, Global};

/// The places 0, 1, .. of so many reports. `AllocError` is want of memory.
pub fn all_places(alloc: Global, count: u32) -> Result<Vec<u32>, AllocError>
    ensures whole { IfOk result (λ live. (batch : List Report) → length batch ≡ count → picked batch live.items ≡ batch) }
    ensures places { IfOk result (λ live. All (λ k. k < count) live.items) }
    ensures count { IfOk result (λ live. length live.items ≡ count) }
{
    let mut live = Vec::with_capacity(alloc, count as usize)?;
    for k in 0..count {
        live.push(k)?;
    }
    Ok(live)
}
