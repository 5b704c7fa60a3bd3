//! The three sends.
//! Each builds its whole message first and hands it to the link in one call.

ghost use Rattle.std.specs.Prelude.{◌≡◌, ◌+◌, ◌*◌, ◌^◌, ◌<◌, length, IfErr, OnOk, OnErr, IsTrue};
ghost use Rattle.std.specs.Option.{option_map};
ghost use Rattle.shelf_io.specs.Talks.{Sends, after_send};
ghost use Rattle.walk_definitions.specs.Messages.{message, flat};
ghost use Rattle.peer_exchange.specs.Exchanges.{HasLinkCause, IsOwn};
ghost use Rattle.peer_exchange.specs.Kinds.{kind_number};

use crate::exchange_error::ExchangeError;
use crate::kind::Kind;
use crate::spelling::spelled_message;
use crate::triples::elements_of;
use definitions::Side;
use field64::Fe;
use shelf_io::Link;
use sketch_check::Sums;
use std::alloc::Global;

/// Sends a side's sums of a level, x, y and z of each report in order, as one message of kind 1 in one call of the link.
/// The error is `Link` only where the link's count of faults rose, or `Memory` for want of memory; after either a told link
/// is as before.
pub fn send_sums<K: Link>(
    alloc: Global,
    link: &mut K,
    from: Side,
    level: u16,
    sums: &[Sums],
) -> Result<(), ExchangeError>
    requires few { length sums.now < 2 ^ 27 }
    ensures sent { OnOk result (Sends from (message 1 level (flat sums.now)) (K.talk link.old) (K.talk link.new)) }
    ensures truly { OnOk result (IsTrue (K.is_true link.old)
        → K.talk link.new ≡ option_map (after_send from (message 1 level (flat sums.now))) (K.talk link.old)) }
    ensures refused { OnErr result (K.talk link.new ≡ K.talk link.old) }
    ensures stays_true { IsTrue (K.is_true link.old) → IsTrue (K.is_true link.new) }
    ensures cause { HasLinkCause (K.faults link.old) (K.faults link.new) result }
    ensures own { IfErr result IsOwn }
{
    let numbers = elements_of(alloc, sums)?;
    send_numbers(alloc, link, from, Kind::Sums, level, &numbers)
}

/// Sends a side's sigmas of a level, one for each report in order, as one message of kind 2 in one call of the link.
/// The error is `Link` only where the link's count of faults rose, or `Memory` for want of memory; after either a told link
/// is as before.
pub fn send_sigmas<K: Link>(
    alloc: Global,
    link: &mut K,
    from: Side,
    level: u16,
    sigmas: &[Fe],
) -> Result<(), ExchangeError>
    requires few { length sigmas.now < 2 ^ 27 }
    ensures sent { OnOk result (Sends from (message 2 level sigmas.now) (K.talk link.old) (K.talk link.new)) }
    ensures truly { OnOk result (IsTrue (K.is_true link.old)
        → K.talk link.new ≡ option_map (after_send from (message 2 level sigmas.now)) (K.talk link.old)) }
    ensures refused { OnErr result (K.talk link.new ≡ K.talk link.old) }
    ensures stays_true { IsTrue (K.is_true link.old) → IsTrue (K.is_true link.new) }
    ensures cause { HasLinkCause (K.faults link.old) (K.faults link.new) result }
    ensures own { IfErr result IsOwn }
{
    send_numbers(alloc, link, from, Kind::Sigmas, level, sigmas)
}

/// Sends a side's totals of a level, one for each candidate in order, as one message of kind 3 in one call of the link.
/// The error is `Link` only where the link's count of faults rose, or `Memory` for want of memory; after either a told link
/// is as before.
pub fn send_totals<K: Link>(
    alloc: Global,
    link: &mut K,
    from: Side,
    level: u16,
    totals: &[Fe],
) -> Result<(), ExchangeError>
    requires few { length totals.now < 2 ^ 27 }
    ensures sent { OnOk result (Sends from (message 3 level totals.now) (K.talk link.old) (K.talk link.new)) }
    ensures truly { OnOk result (IsTrue (K.is_true link.old)
        → K.talk link.new ≡ option_map (after_send from (message 3 level totals.now)) (K.talk link.old)) }
    ensures refused { OnErr result (K.talk link.new ≡ K.talk link.old) }
    ensures stays_true { IsTrue (K.is_true link.old) → IsTrue (K.is_true link.new) }
    ensures cause { HasLinkCause (K.faults link.old) (K.faults link.new) result }
    ensures own { IfErr result IsOwn }
{
    send_numbers(alloc, link, from, Kind::Totals, level, totals)
}

/// Sends a message of these elements.
fn send_numbers<K: Link>(
    alloc: Global,
    link: &mut K,
    from: Side,
    kind: Kind,
    level: u16,
    numbers: &[Fe],
) -> Result<(), ExchangeError>
    requires few { 7 + 8 * length numbers.now < 2 ^ 32 }
    ensures sent { OnOk result (Sends from (message (kind_number kind) level numbers.now) (K.talk link.old) (K.talk link.new)) }
    ensures truly { OnOk result (IsTrue (K.is_true link.old)
        → K.talk link.new ≡ option_map (after_send from (message (kind_number kind) level numbers.now)) (K.talk link.old)) }
    ensures refused { OnErr result (K.talk link.new ≡ K.talk link.old) }
    ensures stays_true { IsTrue (K.is_true link.old) → IsTrue (K.is_true link.new) }
    ensures cause { HasLinkCause (K.faults link.old) (K.faults link.new) result }
    ensures own { IfErr result IsOwn }
{
    let bytes = spelled_message(alloc, kind, level, numbers)?;
    link.send(from, &bytes)?;
    Ok(())
}
