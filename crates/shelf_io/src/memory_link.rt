//! A link in memory, some of whose calls fail.
//! For tests of what stands above: it is told by kind and number which calls are to fail, and it is true.

ghost use Rattle.std.specs.Prelude.{◌≡◌, ◌≢◌, ◌<◌, ◌≤◌, [], Some, true, length, take, drop, IfOk, OnOk, OnErr};
ghost use Rattle.std.specs.Option.{option_map};
ghost use Rattle.std.specs.List.{slice_get};
ghost use Rattle.shelf_io.specs.Faults.{HasCause};
ghost use Rattle.shelf_io.specs.Messages.{Kept, talk_of};
ghost use Rattle.shelf_io.specs.Plans.{fresh, Follows};
ghost use Rattle.shelf_io.specs.Talks.{at, after_send, after_receive};

use crate::call::Call;
use crate::firm_link::FirmLink;
use crate::link::Link;
use crate::plan::Plan;
use crate::refused::Refused;
use definitions::Side;
use std::alloc::Global;
use std::marker::Model;

/// Carries bytes in memory, with calls that are to fail. It tells that it is true. Contracts see the list sent with how many
/// bytes wait for each side, and the plan of those calls.
#[derive(Drop)]
pub struct MemoryLink {
    inner: FirmLink,
    plan: Plan,
}

impl Model for MemoryLink {
    ghost use Rattle.shelf_io.specs.Messages.{Kept};
    ghost use Rattle.shelf_io.specs.Plans.{Planned};

    ghost Value = { Kept × Planned };

    ghost view = { λ a. (a.inner, a.plan) };
}

impl MemoryLink {
    /// A link on which nothing was sent. A pair (call, k) in `fail` makes the k-th call of that kind fail, counted from 1. It
    /// takes no memory.
    pub fn new(alloc: Global, fail: Vec<(Call, u64)>) -> MemoryLink
        ensures empty { result ≡ (record { sent = []; zero = 0; one = 0 }, fresh fail.items) }
    {
        MemoryLink {
            inner: FirmLink::new(alloc),
            plan: Plan::new(fail),
        }
    }

    /// Member k of the list sent, counted from 0, and None exactly where there is none: the sender and the bytes.
    pub fn sent(&self, k: u32) -> Option<(Side, &[u8])>
        ensures member { option_map (λ m. (m.0, m.1.now)) result ≡ slice_get self.now.0.sent k }
    {
        self.inner.sent(k)
    }
}

impl Link for MemoryLink {
    ghost talk = { λ link. Some (talk_of link.0) };

    ghost is_true = { λ _. true };

    ghost faults = { λ link. link.1.faults };

    ghost use Rattle.shelf_io.specs.Messages.{true_talk};

    ghost waits = { λ link _. true_talk link.0 };

    fn send(&mut self, from: Side, bytes: &[u8]) -> Result<(), Refused>
        ensures sent { OnOk result (talk_of self.new.0 ≡ after_send from bytes.now (talk_of self.old.0)) }
        ensures refused { OnErr result (talk_of self.new.0 ≡ talk_of self.old.0) }
        ensures cause { HasCause self.old.1.faults self.new.1.faults result }
        ensures planned { Follows Call.Send self.old.1 self.new.1 result }
    {
        if self.plan.fails(Call::Send) {
            return Err(Refused::Failed);
        }
        self.inner.send(from, bytes)
    }

    fn receive(&mut self, to: Side, into: &mut [u8]) -> Result<usize, Refused>
        ensures within { IfOk result (λ n. n ≤ length into.old) }
        ensures rest { IfOk result (λ n. drop n into.new ≡ drop n into.old) }
        ensures bytes { IfOk result (λ n.
            (n ≤ length (at to (talk_of self.old.0).waiting))
            × (take n into.new ≡ take n (at to (talk_of self.old.0).waiting))) }
        ensures end { result ≡ Ok 0 → 0 < length into.old → at to (talk_of self.old.0).waiting ≡ [] }
        ensures received { IfOk result (λ n. talk_of self.new.0 ≡ after_receive to n (talk_of self.old.0)) }
        ensures refused { OnErr result (talk_of self.new.0 ≡ talk_of self.old.0) }
        ensures cause { HasCause self.old.1.faults self.new.1.faults result }
        ensures no_memory { result ≢ Err Refused.Memory }
        ensures planned { Follows Call.Receive self.old.1 self.new.1 result }
    {
        if self.plan.fails(Call::Receive) {
            return Err(Refused::Failed);
        }
        self.inner.receive(to, into)
    }
}
