//! The two kinds of message whose numbers both sides add.
//! Sends and takes of either are one to the code that adds.

ghost use Rattle.std.specs.Prelude.{◌≡◌, ◌<◌, ◌^◌, length, IfSome, IfOk, IfErr, OnOk, OnErr, IsTrue, Ok};
ghost use Rattle.std.specs.Option.{option_map};
ghost use Rattle.shelf_io.specs.Talks.{Sends, after_send, after_receive};
ghost use Rattle.walk_definitions.specs.Messages.{message};
ghost use Rattle.peer_exchange.specs.Exchanges.{HasLinkCause, IsOwn, message_length, read_by, IsFault, Leaves};
ghost use Rattle.pair_run.specs.AddedKinds.{added_number};

use definitions::Side;
use field64::Fe;
use peer_exchange::{ExchangeError, send_sigmas, send_totals, take_sigmas, take_totals};
use shelf_io::Link;
use std::alloc::Global;

/// A kind of message whose numbers are added.
#[derive(Clone, Copy, Debug, PartialEq, Eq)]
pub enum AddedKind {
    /// One for each live report.
    Sigmas,
    /// One for each candidate.
    Totals,
}

impl AddedKind {
    /// The number that a message of the kind begins with.
    pub fn number(self) -> u8
        ensures number { result ≡ added_number self }
    {
        match self {
            AddedKind::Sigmas => 2,
            AddedKind::Totals => 3,
        }
    }

    /// Sends a side's numbers.
    pub fn send<K: Link>(
        self,
        alloc: Global,
        link: &mut K,
        from: Side,
        level: u16,
        numbers: &[Fe],
    ) -> Result<(), ExchangeError>
        requires few { length numbers.now < 2 ^ 27 }
        ensures sent { OnOk result (Sends from (message (added_number self) level numbers.now) (K.talk link.old) (K.talk link.new)) }
        ensures truly { OnOk result (IsTrue (K.is_true link.old)
            → K.talk link.new ≡ option_map (after_send from (message (added_number self) level numbers.now)) (K.talk link.old)) }
        ensures refused { OnErr result (K.talk link.new ≡ K.talk link.old) }
        ensures stays_true { IsTrue (K.is_true link.old) → IsTrue (K.is_true link.new) }
        ensures cause { HasLinkCause (K.faults link.old) (K.faults link.new) result }
        ensures own { IfErr result IsOwn }
    {
        match self {
            AddedKind::Sigmas => send_sigmas(alloc, link, from, level, numbers),
            AddedKind::Totals => send_totals(alloc, link, from, level, numbers),
        }
    }

    /// Takes the other side's numbers.
    pub fn take<K: Link>(
        self,
        alloc: Global,
        link: &mut K,
        to: Side,
        level: u16,
        count: u32,
    ) -> Result<Vec<Fe>, ExchangeError>
        requires few { count < 2 ^ 27 }
        ensures count { IfOk result (λ numbers. length numbers.items ≡ count) }
        ensures elements { IfSome (K.talk link.old) (λ before.
            IfOk result (λ numbers. read_by to (added_number self) level count before ≡ Ok numbers.items)) }
        ensures fault { IfSome (K.talk link.old) (λ before.
            IfErr result (IsFault (added_number self) level (read_by to (added_number self) level count before))) }
        ensures gone { OnOk result (K.talk link.new ≡ option_map (after_receive to (message_length count)) (K.talk link.old)) }
        ensures left { IfErr result (Leaves to (message_length count) (K.talk link.old) (K.talk link.new)) }
        ensures stays_true { IsTrue (K.is_true link.old) → IsTrue (K.is_true link.new) }
        ensures cause { HasLinkCause (K.faults link.old) (K.faults link.new) result }
    {
        match self {
            AddedKind::Sigmas => take_sigmas(alloc, link, to, level, count),
            AddedKind::Totals => take_totals(alloc, link, to, level, count),
        }
    }
}
