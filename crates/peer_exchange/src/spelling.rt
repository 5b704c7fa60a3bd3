//! The bytes of a whole message.
//! Elements follow the header, each as eight bytes with the lowest first.

ghost use Rattle.std.specs.Prelude.{◌≡◌, ◌+◌, ◌*◌, ◌^◌, ◌<◌, length, IfOk};
ghost use Rattle.walk_definitions.specs.Messages.{message};
ghost use Rattle.peer_exchange.specs.Kinds.{kind_number};

use crate::header::header;
use crate::kind::Kind;
use byteorder::{ByteOrder, LittleEndian};
use field64::Fe;
use std::alloc::{AllocError, Global};

/// A whole message of these elements.
#[tactic(auto, unfolding(walk_definitions::specs::Messages::message))]
pub fn spelled_message(
    alloc: Global,
    kind: Kind,
    level: u16,
    numbers: &[Fe],
) -> Result<Vec<u8>, AllocError>
    requires few { 7 + 8 * length numbers.now < 2 ^ 32 }
    ensures whole { IfOk result (λ bytes. bytes.items ≡ message (kind_number kind) level numbers.now) }
{
    let mut bytes = Vec::with_capacity(alloc, 7 + 8 * numbers.len())?;
    bytes.extend_from_slice(&header(kind, level, numbers.len() as u32))?;
    for number in numbers {
        let mut spelled = [0; 8];
        LittleEndian::write_u64(&mut spelled, number.number());
        bytes.extend_from_slice(&spelled)?;
    }
    Ok(bytes)
}
