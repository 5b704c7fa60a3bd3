//! The elements of a message that was received, or the first offset at fault.
//! It reads a slice and knows of no link.

ghost use Rattle.std.specs.Prelude.{◌≡◌, ◌+◌, ◌*◌, ◌^◌, ◌<◌, ◌≤◌, length, drop, IfOk, IfErr, Ok};
ghost use Rattle.walk_definitions.specs.Messages.{numbers_in, taken};
ghost use Rattle.peer_exchange.specs.Kinds.{kind_number};
ghost use Rattle.peer_exchange.specs.Misreads.{IsMisread};

use crate::header::{header, header_fault};
use crate::kind::Kind;
use crate::misread::Misread;
use byteorder::{ByteOrder, LittleEndian};
use field64::Fe;
use std::alloc::Global;

/// The elements of the message that the bytes are to begin with.
#[tactic(auto, unfolding(walk_definitions::specs::Messages::taken))]
pub fn read_message(
    alloc: Global,
    kind: Kind,
    level: u16,
    count: u32,
    bytes: &[u8],
) -> Result<Vec<Fe>, Misread>
    requires few { 7 + 8 * count < 2 ^ 32 }
    ensures count { IfOk result (λ numbers. length numbers.items ≡ count) }
    ensures elements { IfOk result (λ numbers. taken (kind_number kind) level count bytes.now ≡ Ok numbers.items) }
    ensures fault { IfErr result (IsMisread (taken (kind_number kind) level count bytes.now)) }
{
    if let Some(at) = header_fault(&header(kind, level, count), bytes) {
        return Err(Misread::At(at));
    }
    read_numbers(alloc, count, bytes)
}

/// The elements behind a header.
fn read_numbers(alloc: Global, count: u32, bytes: &[u8]) -> Result<Vec<Fe>, Misread>
    requires few { 7 + 8 * count < 2 ^ 32 }
    requires header { 7 ≤ length bytes.now }
    ensures count { IfOk result (λ numbers. length numbers.items ≡ count) }
    ensures elements { IfOk result (λ numbers. numbers_in count 7 (drop 7 bytes.now) ≡ Ok numbers.items) }
    ensures fault { IfErr result (IsMisread (numbers_in count 7 (drop 7 bytes.now))) }
{
    let mut numbers = Vec::new(alloc);
    for i in 0..count as usize {
        let at = 7 + 8 * i;
        if bytes.len() - at < 8 {
            return Err(Misread::At(bytes.len() as u32));
        }
        let Some(number) = Fe::new(LittleEndian::read_u64(&bytes[at..])) else {
            return Err(Misread::At(at as u32));
        };
        numbers.push(number)?;
    }
    Ok(numbers)
}
