//! The messages that a link in memory keeps, and what it lets wait.
//! A message is kept with its sender; its bytes go into the other side's queue.

ghost use Rattle.std.specs.Prelude.{◌≡◌, ◌++◌, ◌∷◌, [], OnOk, OnErr};
ghost use Rattle.shelf_io.specs.Messages.{messages_of};
ghost use Rattle.shelf_io.specs.Talks.{part_by};

use crate::queue::Queue;
use definitions::Side;
use std::alloc::{AllocError, Global};

/// A sender and its bytes.
#[derive(Drop)]
pub struct Message {
    pub from: Side,
    pub bytes: Vec<u8>,
}

/// Keeps a message.
pub fn keep_in(
    alloc: Global,
    sent: &mut Vec<Message>,
    from: Side,
    bytes: &[u8],
) -> Result<(), AllocError>
    ensures kept { OnOk result (messages_of sent.new.items ≡ messages_of sent.old.items ++ (from, bytes.now) ∷ []) }
    ensures refused { OnErr result (sent.new.items ≡ sent.old.items) }
{
    let bytes = bytes.to_vec(alloc)?;
    sent.push(Message { from, bytes })?;
    Ok(())
}

/// Lets bytes of a side wait for the other one; these are the queues of side 0 and side 1.
pub fn push_for(
    from: Side,
    zero: &mut Queue,
    one: &mut Queue,
    bytes: &[u8],
) -> Result<(), AllocError>
    ensures zero { OnOk result (zero.new ≡ zero.old ++ part_by Side.One from bytes.now) }
    ensures one { OnOk result (one.new ≡ one.old ++ part_by Side.Zero from bytes.now) }
    ensures refused { OnErr result ((zero.new ≡ zero.old) × (one.new ≡ one.old)) }
{
    match from {
        Side::Zero => one.push(bytes),
        Side::One => zero.push(bytes),
    }
}
