//! The three takes.
//! Each receives as many bytes as its message has, or all where fewer wait, and reads them.

ghost use Rattle.std.specs.Prelude.{◌≡◌, ◌+◌, ◌*◌, ◌^◌, ◌<◌, length, IfSome, IfOk, IfErr, OnOk, IsTrue, Ok};
ghost use Rattle.std.specs.Option.{option_map};
ghost use Rattle.shelf_io.specs.Talks.{after_receive};
ghost use Rattle.walk_definitions.specs.Messages.{flat};
ghost use Rattle.peer_exchange.specs.Exchanges.{HasLinkCause, message_length, read_by, IsFault, Leaves};
ghost use Rattle.peer_exchange.specs.Kinds.{kind_number};

use crate::exchange_error::ExchangeError;
use crate::kind::Kind;
use crate::misread::Misread;
use crate::reading::read_message;
use crate::receiving::receive_into;
use crate::triples::sums_of;
use definitions::Side;
use field64::Fe;
use shelf_io::Link;
use sketch_check::Sums;
use std::alloc::Global;

/// Takes the other side's sums of a level, counted from 1, for `count` reports: three elements for each.
///
/// It receives bytes until it has as many as the message of kind 1 has, or nothing waits. On every link an Ok has `count`
/// entries; on a told link the answer is what those bytes read as. The error is `PeerMessage` exactly where they are not
/// the expected message, with the first offset at fault, and then they are gone; `Link` only where the link's count of
/// faults rose; `Memory` for want of memory. After `Link` and `Memory` a front of them is gone. On a true link that holds
/// the expected message `PeerMessage` never comes.
pub fn take_sums<K: Link>(
    alloc: Global,
    link: &mut K,
    to: Side,
    level: u16,
    count: u32,
) -> Result<Vec<Sums>, ExchangeError>
    requires few { count < 2 ^ 27 }
    ensures count { IfOk result (λ sums. length sums.items ≡ count) }
    ensures elements { IfSome (K.talk link.old) (λ before.
        IfOk result (λ sums. read_by to 1 level (3 * count) before ≡ Ok (flat sums.items))) }
    ensures fault { IfSome (K.talk link.old) (λ before. IfErr result (IsFault 1 level (read_by to 1 level (3 * count) before))) }
    ensures gone { OnOk result (K.talk link.new ≡ option_map (after_receive to (message_length (3 * count))) (K.talk link.old)) }
    ensures left { IfErr result (Leaves to (message_length (3 * count)) (K.talk link.old) (K.talk link.new)) }
    ensures stays_true { IsTrue (K.is_true link.old) → IsTrue (K.is_true link.new) }
    ensures cause { HasLinkCause (K.faults link.old) (K.faults link.new) result }
{
    let numbers = take_numbers(alloc, link, to, Kind::Sums, level, 3 * count)?;
    Ok(sums_of(alloc, &numbers, count)?)
}

/// Takes the other side's sigmas of a level, counted from 1, for `count` reports: one element for each.
///
/// It receives bytes until it has as many as the message of kind 2 has, or nothing waits. On every link an Ok has `count`
/// entries; on a told link the answer is what those bytes read as. The error is `PeerMessage` exactly where they are not
/// the expected message, with the first offset at fault, and then they are gone; `Link` only where the link's count of
/// faults rose; `Memory` for want of memory. After `Link` and `Memory` a front of them is gone. On a true link that holds
/// the expected message `PeerMessage` never comes.
pub fn take_sigmas<K: Link>(
    alloc: Global,
    link: &mut K,
    to: Side,
    level: u16,
    count: u32,
) -> Result<Vec<Fe>, ExchangeError>
    requires few { count < 2 ^ 27 }
    ensures count { IfOk result (λ sigmas. length sigmas.items ≡ count) }
    ensures elements { IfSome (K.talk link.old) (λ before.
        IfOk result (λ sigmas. read_by to 2 level count before ≡ Ok sigmas.items)) }
    ensures fault { IfSome (K.talk link.old) (λ before. IfErr result (IsFault 2 level (read_by to 2 level count before))) }
    ensures gone { OnOk result (K.talk link.new ≡ option_map (after_receive to (message_length count)) (K.talk link.old)) }
    ensures left { IfErr result (Leaves to (message_length count) (K.talk link.old) (K.talk link.new)) }
    ensures stays_true { IsTrue (K.is_true link.old) → IsTrue (K.is_true link.new) }
    ensures cause { HasLinkCause (K.faults link.old) (K.faults link.new) result }
{
    take_numbers(alloc, link, to, Kind::Sigmas, level, count)
}

/// Takes the other side's totals of a level, counted from 1, for `count` candidates: one element for each.
///
/// It receives bytes until it has as many as the message of kind 3 has, or nothing waits. On every link an Ok has `count`
/// entries; on a told link the answer is what those bytes read as. The error is `PeerMessage` exactly where they are not
/// the expected message, with the first offset at fault, and then they are gone; `Link` only where the link's count of
/// faults rose; `Memory` for want of memory. After `Link` and `Memory` a front of them is gone. On a true link that holds
/// the expected message `PeerMessage` never comes.
pub fn take_totals<K: Link>(
    alloc: Global,
    link: &mut K,
    to: Side,
    level: u16,
    count: u32,
) -> Result<Vec<Fe>, ExchangeError>
    requires few { count < 2 ^ 27 }
    ensures count { IfOk result (λ totals. length totals.items ≡ count) }
    ensures elements { IfSome (K.talk link.old) (λ before.
        IfOk result (λ totals. read_by to 3 level count before ≡ Ok totals.items)) }
    ensures fault { IfSome (K.talk link.old) (λ before. IfErr result (IsFault 3 level (read_by to 3 level count before))) }
    ensures gone { OnOk result (K.talk link.new ≡ option_map (after_receive to (message_length count)) (K.talk link.old)) }
    ensures left { IfErr result (Leaves to (message_length count) (K.talk link.old) (K.talk link.new)) }
    ensures stays_true { IsTrue (K.is_true link.old) → IsTrue (K.is_true link.new) }
    ensures cause { HasLinkCause (K.faults link.old) (K.faults link.new) result }
{
    take_numbers(alloc, link, to, Kind::Totals, level, count)
}

/// Takes a message of so many elements.
fn take_numbers<K: Link>(
    alloc: Global,
    link: &mut K,
    to: Side,
    kind: Kind,
    level: u16,
    count: u32,
) -> Result<Vec<Fe>, ExchangeError>
    requires few { 7 + 8 * count < 2 ^ 32 }
    ensures count { IfOk result (λ numbers. length numbers.items ≡ count) }
    ensures elements { IfSome (K.talk link.old) (λ before.
        IfOk result (λ numbers. read_by to (kind_number kind) level count before ≡ Ok numbers.items)) }
    ensures fault { IfSome (K.talk link.old) (λ before.
        IfErr result (IsFault (kind_number kind) level (read_by to (kind_number kind) level count before))) }
    ensures gone { OnOk result (K.talk link.new ≡ option_map (after_receive to (message_length count)) (K.talk link.old)) }
    ensures left { IfErr result (Leaves to (message_length count) (K.talk link.old) (K.talk link.new)) }
    ensures stays_true { IsTrue (K.is_true link.old) → IsTrue (K.is_true link.new) }
    ensures cause { HasLinkCause (K.faults link.old) (K.faults link.new) result }
{
    let mut bytes = vec![in alloc; 0; 7 + 8 * count as usize]?;
    let n = receive_into(link, to, &mut bytes)?;
    match read_message(alloc, kind, level, count, &bytes[..n]) {
        Ok(numbers) => Ok(numbers),
        Err(Misread::At(at)) => Err(ExchangeError::PeerMessage {
            level,
            kind: kind.number(),
            at,
        }),
        Err(Misread::Memory) => Err(ExchangeError::Memory),
    }
}
