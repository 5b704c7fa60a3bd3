//! What a side has under each id, found by one pass over its shares.
//! It stands in a map in the order of the ids, so that the batch is read off two of them.

ghost use Rattle.std.specs.Prelude.{◌≡◌, ℕ, List, IfOk};
ghost use Rattle.std.specs.Ordering.{nat_cmp};
ghost use Rattle.std.specs.Cmp.Lexicographic.{slice_cmp};
ghost use Rattle.std.specs.BTreeMap.{get, IsOrdered};
ghost use Rattle.report_batch.specs.Contents.{content_of};

use crate::content::Content;
use idpf_eval::Share;
use prefix_bits::ReportId;
use std::alloc::{AllocError, Global};
use std::collections::BTreeMap;

/// What a side with these shares has under each id that one of them has. After `AllocError` the shares are given up.
pub fn contents_of(
    alloc: Global,
    shares: Vec<Share>,
) -> Result<BTreeMap<ReportId, Content>, AllocError>
    ensures contents { IfOk result (λ m. (id : List ℕ) → get (slice_cmp nat_cmp) m id ≡ content_of shares.items id) }
    ensures ordered { IfOk result (λ m. IsOrdered (slice_cmp nat_cmp) m) }
{
    let mut contents = BTreeMap::new(alloc);
    for share in shares {
        let id = share.id;
        let before = contents.remove(&id);
        contents.insert(id, Content::met(before, share))?;
    }
    Ok(contents)
}
