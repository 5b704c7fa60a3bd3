//! The end of both sides' intakes: the batch of all that was uploaded.
//! Which reports stand depends on no order of the uploads.

ghost use Rattle.std.specs.Prelude.{◌≡◌, List, IfOk, vec_len};
ghost use Rattle.std.specs.List.{AllByRecursion};
ghost use Rattle.definitions.specs.declared.Side.TheVariants.{Zero, One};
ghost use Rattle.core_definitions.specs.System.{Entry};
ghost use Rattle.walk_definitions.specs.Reports.{batch};
ghost use Rattle.report_intake.specs.History.{own_shares, shares_of, IsHistory};

use crate::intake::Intake;
use crate::laws::a_history_is_the_passes_own_entries;
use crate::passes::UploadPass;
use report_batch::Batch;
use std::alloc::{AllocError, Global};
use walk_definitions::laws::batches_know_no_order;

/// Ends both intakes, each with all of its passes in any order, and gives the batch of what was uploaded: the reports whose
/// ids have one content on each side.
///
/// It is the batch of the own entries of each side's passes, in the order of the passes' numbers: no upload is lost, doubled
/// or invented. Each side has one legal history of which every log that was seen is a beginning. It waits for nobody.
///
/// After `AllocError` the reports are given up.
pub fn seal(
    alloc: Global,
    zero: Intake,
    one: Intake,
    passes_zero: Vec<UploadPass>,
    passes_one: Vec<UploadPass>,
) -> Result<Batch, AllocError>
    requires sides { (zero.side ≡ Zero) × (one.side ≡ One) }
    requires ours0 { AllByRecursion (λ pass. pass.lock ≡ zero.lock) passes_zero.items }
    requires ours1 { AllByRecursion (λ pass. pass.lock ≡ one.lock) passes_one.items }
    requires all0 { vec_len passes_zero ≡ zero.passes }
    requires all1 { vec_len passes_one ≡ one.passes }
    ensures exact { IfOk result (λ b. b ≡ batch (own_shares passes_zero.items) (own_shares passes_one.items)) }
    ensures histories { IfOk result (λ b. (log0 : List Entry) × (log1 : List Entry)
        × IsHistory passes_zero.items log0 × IsHistory passes_one.items log1 × (b ≡ batch (shares_of log0) (shares_of log1))) }
{
    let zero = zero.close(passes_zero);
    let one = one.close(passes_one);
    a_history_is_the_passes_own_entries();
    batches_know_no_order();
    Batch::of(alloc, zero, one)
}
