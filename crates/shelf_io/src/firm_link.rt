//! A link in memory.
//! It never fails, and refuses only for want of memory; it is true.

ghost use Rattle.std.specs.Prelude.{◌≡◌, [], Some, true};
ghost use Rattle.std.specs.Option.{option_map};
ghost use Rattle.std.specs.List.{slice_get};
ghost use Rattle.shelf_io.specs.Messages.{Kept, talk_of};

use crate::link::Link;
use crate::messages::{Message, keep_in, push_for};
use crate::queue::Queue;
use crate::refused::Refused;
use definitions::Side;
use std::alloc::Global;
use std::marker::Model;

/// Carries bytes in memory and never fails: the count of faults is always 0. It tells that it is true. Contracts see the
/// list sent and how many bytes wait for each side.
#[derive(Drop)]
pub struct FirmLink {
    alloc: Global,
    sent: Vec<Message>,
    zero: Queue,
    one: Queue,
}

impl Model for FirmLink {
    ghost use Rattle.std.specs.Prelude.{length};
    ghost use Rattle.shelf_io.specs.Messages.{Kept};

    ghost Value = { Kept };

    ghost use Rattle.shelf_io.specs.Messages.{messages_of, AreLast};

    ghost view = { λ a. record { sent = messages_of a.sent.items; zero = length a.zero; one = length a.one } };

    ghost invariant = { λ a. AreLast (messages_of a.sent.items) a.zero a.one };
}

impl FirmLink {
    /// A link on which nothing was sent. It takes no memory.
    pub fn new(alloc: Global) -> FirmLink
        ensures empty { result ≡ record { sent = []; zero = 0; one = 0 } }
    {
        FirmLink {
            alloc,
            sent: Vec::new(alloc),
            zero: Queue::new(alloc),
            one: Queue::new(alloc),
        }
    }

    /// Member k of the list sent, counted from 0, and None exactly where there is none: the sender and the bytes.
    pub fn sent(&self, k: u32) -> Option<(Side, &[u8])>
        ensures member { option_map (λ m. (m.0, m.1.now)) result ≡ slice_get self.now.sent k }
    {
        let message = self.sent.get(k as usize)?;
        Some((message.from, message.bytes.as_slice()))
    }
}

impl Link for FirmLink {
    ghost talk = { λ link. Some (talk_of link) };

    ghost is_true = { λ _. true };

    ghost faults = { λ _. 0 };

    ghost use Rattle.shelf_io.specs.Messages.{true_talk};

    ghost waits = { λ link _. true_talk link };

    fn send(&mut self, from: Side, bytes: &[u8]) -> Result<(), Refused> {
        if let Err(_) = keep_in(self.alloc, &mut self.sent, from, bytes) {
            return Err(Refused::Memory);
        }
        if let Err(_) = push_for(from, &mut self.zero, &mut self.one, bytes) {
            self.sent.pop();
            return Err(Refused::Memory);
        }
        Ok(())
    }

    fn receive(&mut self, to: Side, into: &mut [u8]) -> Result<usize, Refused> {
        let n = match to {
            Side::Zero => self.zero.take(into),
            Side::One => self.one.take(into),
        };
        Ok(n)
    }
}
