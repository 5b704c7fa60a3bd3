//! A link in memory that changes one message on its way.
//! For tests of what stands above: it tells what passed, and that it is not true.

ghost use Rattle.std.specs.Prelude.{◌≡◌, ◌≢◌, ◌<◌, ◌≤◌, [], Some, false, length, take, drop, IfOk, OnOk, OnErr};
ghost use Rattle.std.specs.Option.{option_map};
ghost use Rattle.std.specs.List.{slice_get};
ghost use Rattle.shelf_io.specs.Faults.{HasCause};
ghost use Rattle.shelf_io.specs.Talks.{at, after_receive};
ghost use Rattle.outside_forms.specs.Twists.{talk_on, passing, Passes, Stays};

use crate::sent_messages::{Sent, keep_in};
use crate::twist::{Twist, change};
use definitions::Side;
use shelf_io::{FirmLink, Link, Refused};
use std::alloc::{AllocError, Global};
use std::marker::Model;

/// Carries bytes in memory, of which one message is changed on its way: the list sent has it as it was sent, and what waits for
/// the other side is the changed one. It never fails. It tells what passed, and that it is not true. Contracts see the list sent,
/// what passed, and which message is changed and how.
#[derive(Drop)]
pub struct TwistLink {
    alloc: Global,
    sent: Vec<Sent>,
    passed: FirmLink,
    message: u32,
    twist: Twist,
}

impl Model for TwistLink {
    ghost use Rattle.outside_forms.specs.Twists.{Twisting, pairs_of};

    ghost Value = { Twisting };

    ghost view = { λ a. record { sent = pairs_of a.sent.items; passed = a.passed; message = a.message; twist = a.twist } };
}

impl TwistLink {
    /// A link on which nothing was sent, and which will change this message, counted from 0. It takes no memory.
    pub fn new(alloc: Global, message: u32, twist: Twist) -> TwistLink
        ensures empty { result ≡ record { sent = []; passed = record { sent = []; zero = 0; one = 0 }; message = message; twist = twist } }
    {
        TwistLink {
            alloc,
            sent: Vec::new(alloc),
            passed: FirmLink::new(alloc),
            message,
            twist,
        }
    }

    /// Member k of the list sent, counted from 0, and None exactly where there is none: the sender and the bytes as they were
    /// sent.
    pub fn sent(&self, k: u32) -> Option<(Side, &[u8])>
        ensures member { option_map (λ m. (m.0, m.1.now)) result ≡ slice_get self.now.sent k }
    {
        let message = self.sent.get(k as usize)?;
        Some((message.from, message.bytes.as_slice()))
    }

    // What passes of the next message.
    fn passing(&self, bytes: &[u8]) -> Result<Vec<u8>, AllocError>
        ensures { IfOk result (λ passes. passes.items ≡ passing self.now bytes.now) }
    {
        let mut passes = bytes.to_vec(self.alloc)?;
        if self.sent.len() == self.message as usize {
            change(self.twist, &mut passes);
        }
        Ok(passes)
    }
}

impl Link for TwistLink {
    ghost talk = { λ link. Some (talk_on link) };

    ghost is_true = { λ _. false };

    ghost faults = { λ _. 0 };

    ghost use Rattle.std.proofs.lemmas.Bool.{false≢true};

    ghost waits = { λ _ never. absurd (false≢true never) };

    fn send(&mut self, from: Side, bytes: &[u8]) -> Result<(), Refused>
        ensures passes { OnOk result (Passes from bytes.now self.old self.new) }
        ensures refused { OnErr result (talk_on self.new ≡ talk_on self.old) }
        ensures stays { OnErr result (Stays self.old self.new) }
        ensures memory { OnErr result (result ≡ Err Refused.Memory) }
    {
        let passes = self.passing(bytes)?;
        keep_in(self.alloc, &mut self.sent, from, bytes)?;
        if let Err(_) = self.passed.send(from, &passes) {
            self.sent.pop();
            return Err(Refused::Memory);
        }
        Ok(())
    }

    fn receive(&mut self, to: Side, into: &mut [u8]) -> Result<usize, Refused>
        ensures within { IfOk result (λ n. n ≤ length into.old) }
        ensures rest { IfOk result (λ n. drop n into.new ≡ drop n into.old) }
        ensures bytes { IfOk result (λ n.
            (n ≤ length (at to (talk_on self.old).waiting))
            × (take n into.new ≡ take n (at to (talk_on self.old).waiting))) }
        ensures end { result ≡ Ok 0 → 0 < length into.old → at to (talk_on self.old).waiting ≡ [] }
        ensures received { IfOk result (λ n. talk_on self.new ≡ after_receive to n (talk_on self.old)) }
        ensures stays { Stays self.old self.new }
        ensures refused { OnErr result (talk_on self.new ≡ talk_on self.old) }
        ensures cause { HasCause 0 0 result }
        ensures no_memory { result ≢ Err Refused.Memory }
    {
        self.passed.receive(to, into)
    }
}
