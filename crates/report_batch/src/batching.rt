//! The batch of two lists of shares: what each side has under each id, joined in the order of the ids.
//! The result is exactly the definition `batch` of `walk_definitions`.

ghost use Rattle.std.specs.Prelude.{◌≡◌, IfOk, map};
ghost use Rattle.walk_definitions.specs.Reports.{batch};

use crate::batch::Batch;
use crate::content::both;
use crate::contents::contents_of;
use definitions::Sequence;
use idpf_eval::Share;
use intake_state::IntakeState;
use std::alloc::{AllocError, Global};

/// The batch of both sides' shares: the ids that have one content on each side, ascending by bytes, each with its two
/// shares. An id with two different contents on a side is left out, and repeats count once. The time is that of a
/// sort. After `AllocError` the shares are given up.
pub fn batch_of(alloc: Global, zero: Vec<Share>, one: Vec<Share>) -> Result<Batch, AllocError>
    ensures exact { IfOk result (λ b. b ≡ batch zero.items one.items) }
{
    let contents = contents_of(alloc, zero)?;
    let mut others = contents_of(alloc, one)?;
    let mut ids = Vec::new(alloc);
    let mut zeros = Vec::new(alloc);
    let mut ones = Vec::new(alloc);
    for (id, content) in contents {
        if let Some((held0, held1)) = both(content, others.remove(&id)) {
            ids.push(id)?;
            zeros.push(held0)?;
            ones.push(held1)?;
        }
    }
    Ok(Batch::of_lists(
        Sequence::from_vec(ids),
        Sequence::from_vec(zeros),
        Sequence::from_vec(ones),
    ))
}

impl Batch {
    /// The batch of what was uploaded to both sides' intakes, whose logs may be of any length: the ids that have one content
    /// on each side, ascending by bytes, each with its two shares. After `AllocError` both states are given up.
    pub fn of(alloc: Global, zero: IntakeState, one: IntakeState) -> Result<Batch, AllocError>
        ensures exact { IfOk result (λ b. b ≡ batch (map (λ e. e.share) zero) (map (λ e. e.share) one)) }
    {
        batch_of(alloc, zero.into_shares(alloc)?, one.into_shares(alloc)?)
    }
}
