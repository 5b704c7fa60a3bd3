//! The messages that a link was given, as they were sent.
//! A message is kept with its sender.

ghost use Rattle.std.specs.Prelude.{◌≡◌, ◌++◌, ◌∷◌, [], OnOk, OnErr};
ghost use Rattle.outside_forms.specs.Twists.{pairs_of};

use definitions::Side;
use std::alloc::{AllocError, Global};

/// A sender and its bytes.
#[derive(Drop)]
pub struct Sent {
    pub from: Side,
    pub bytes: Vec<u8>,
}

/// Keeps a message.
pub fn keep_in(
    alloc: Global,
    sent: &mut Vec<Sent>,
    from: Side,
    bytes: &[u8],
) -> Result<(), AllocError>
    ensures kept { OnOk result (pairs_of sent.new.items ≡ pairs_of sent.old.items ++ (from, bytes.now) ∷ []) }
    ensures refused { OnErr result (sent.new.items ≡ sent.old.items) }
{
    let bytes = bytes.to_vec(alloc)?;
    sent.push(Sent { from, bytes })?;
    Ok(())
}
