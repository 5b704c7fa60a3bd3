//! The first seven bytes of a message: kind, level and number of elements.
//! They are spelled with the highest byte first.

ghost use Rattle.std.specs.Prelude.{◌≡◌, ◌≤◌, length, IfNone};
ghost use Rattle.walk_definitions.specs.Messages.{heading, heading_fault};
ghost use Rattle.peer_exchange.specs.Kinds.{kind_number};

use crate::kind::Kind;
use byteorder::{BigEndian, ByteOrder};

/// The header of a message of so many elements.
pub fn header(kind: Kind, level: u16, count: u32) -> [u8; 7]
    ensures bytes { result ≡ heading (kind_number kind) level count }
{
    let mut bytes = [0; 7];
    bytes[0] = kind.number();
    BigEndian::write_u16(&mut bytes[1..], level);
    BigEndian::write_u32(&mut bytes[3..], count);
    bytes
}

/// The first offset at which bytes differ from the header, or end.
pub fn header_fault(header: &[u8; 7], bytes: &[u8]) -> Option<u32>
    ensures fault { result ≡ heading_fault header.now bytes.now 0 }
    ensures enough { IfNone result (7 ≤ length bytes.now) }
{
    for at in 0..7 {
        if at >= bytes.len() || bytes[at] != header[at] {
            return Some(at as u32);
        }
    }
    None
}
