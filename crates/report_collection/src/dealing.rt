//! Shares are dealt to uploaders, who sit down to upload and get up again.
//! All room for that is taken by the deal.

ghost use Rattle.std.specs.Prelude.{◌≡◌, ◌≤◌, true, [], flat_map, IfOk, vec_len, vec_capacity};
ghost use Rattle.std.specs.Bool.{OnTrue};
ghost use Rattle.std.specs.List.{AllByRecursion};
ghost use Rattle.std.specs.List.Sorted.{IsPermutation};
ghost use Rattle.report_intake.specs.Seen.{IntakeId};
ghost use Rattle.report_collection.specs.Uploads.{IsOf, IsTaken, Seated, own_of, own_in, queued_in};

use crate::uploader::Uploader;
use idpf_eval::Share;
use report_intake::UploadPass;
use std::alloc::{AllocError, Global};

/// The shares in so many lists of about the same length. After `AllocError` they are given up.
pub fn deal(alloc: Global, shares: Vec<Share>, count: usize) -> Result<Vec<Vec<Share>>, AllocError>
    requires some { 1 ≤ count }
    ensures count { IfOk result (λ queues. vec_len queues ≡ count) }
    ensures all { IfOk result (λ queues. IsPermutation shares.items (flat_map (λ queue. queue.items) queues.items)) }
{
    let mut shares = shares;
    let mut queues = Vec::with_capacity(alloc, count)?;
    while queues.len() + 1 < count {
        let left = count - queues.len();
        let kept = shares.len() - shares.len() / left;
        queues.push_reserved(shares.split_off(kept)?);
    }
    queues.push_reserved(shares);
    Ok(queues)
}

/// Seats an uploader for each pass, with a list of shares for each.
pub fn sit_down(
    passes: &mut Vec<UploadPass>,
    queues: Vec<Vec<Share>>,
    seats: &mut Vec<Option<Uploader>>,
)
    requires count { vec_len passes.old ≡ vec_len queues }
    requires room { (seats.old.items ≡ []) × (vec_len passes.old ≤ vec_capacity seats.old) }
    ensures own { IsPermutation (own_of passes.old.items) (own_in seats.new.items) }
    ensures queued { IsPermutation (flat_map (λ queue. queue.items) queues.items) (queued_in seats.new.items) }
    ensures seated { (lock : IntakeId) → AllByRecursion (IsOf lock) passes.old.items → AllByRecursion (Seated lock) seats.new.items }
    ensures count { (vec_len seats.new ≡ vec_len passes.old) × (passes.new.items ≡ []) }
    ensures room { (vec_capacity passes.new ≡ vec_capacity passes.old) × (vec_capacity seats.new ≡ vec_capacity seats.old) }
{
    let mut queues = queues;
    while let Some(pass) = passes.pop() {
        let Some(queue) = queues.pop() else {
            unreachable!()
        };
        seats.push_reserved(Some(Uploader { pass, queue }));
    }
}

/// All get up: their passes come back, and the shares that were not uploaded are given up. The answer is whether there was
/// none.
pub fn get_up(seats: &mut Vec<Option<Uploader>>, passes: &mut Vec<UploadPass>) -> bool
    requires taken { AllByRecursion IsTaken seats.old.items }
    requires room { (passes.old.items ≡ []) × (vec_len seats.old ≤ vec_capacity passes.old) }
    ensures own { IsPermutation (own_in seats.old.items) (own_of passes.new.items) }
    ensures ours { (lock : IntakeId) → AllByRecursion (Seated lock) seats.old.items → AllByRecursion (IsOf lock) passes.new.items }
    ensures count { (vec_len passes.new ≡ vec_len seats.old) × (seats.new.items ≡ []) }
    ensures room { (vec_capacity passes.new ≡ vec_capacity passes.old) × (vec_capacity seats.new ≡ vec_capacity seats.old) }
    ensures all { OnTrue result (queued_in seats.old.items ≡ []) }
{
    let mut all = true;
    while let Some(seat) = seats.pop() {
        let Some(uploader) = seat else { unreachable!() };
        let Uploader { pass, queue } = uploader;
        all = none_left(all, &queue);
        passes.push_reserved(pass);
    }
    all
}

/// Whether no share was left before, and none is left here.
fn none_left(before: bool, queue: &Vec<Share>) -> bool
    ensures { OnTrue result ((before ≡ true) × (queue.now.items ≡ [])) }
{
    before && queue.is_empty()
}
