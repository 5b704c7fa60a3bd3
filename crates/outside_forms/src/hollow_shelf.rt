//! A shelf whose files are stated longer than what it gives.
//! For tests of what stands above: every name has one length and one head of bytes, and nothing can be written.

ghost use Rattle.std.specs.Prelude.{◌≡◌, ◌≢◌, ◌-◌, ◌≤◌, None, Some, length, take, drop, min, IfOk};
ghost use Rattle.shelf_io.specs.Faults.{HasCause};
ghost use Rattle.outside_forms.specs.Hollows.{one_more};

use shelf_io::{Refused, Shelf};
use std::marker::Model;

/// A shelf on which every name has a stated length, and of whose bytes only a head is given. It tells nothing. Contracts see
/// the length, the head and how often it has failed.
#[derive(Drop)]
pub struct HollowShelf {
    stated: u64,
    head: Vec<u8>,
    faults: u64,
}

impl Model for HollowShelf {
    ghost use Rattle.outside_forms.specs.Hollows.{Hollow};

    ghost Value = { Hollow };

    ghost view = { λ a. record { stated = a.stated; head = a.head.items; faults = a.faults } };
}

impl HollowShelf {
    /// A shelf on which every name has `length` bytes, of which `head` are given. It takes no memory.
    pub fn new(length: u64, head: Vec<u8>) -> HollowShelf
        ensures made { result ≡ record { stated = length; head = head.items; faults = 0 } }
    {
        HollowShelf {
            stated: length,
            head,
            faults: 0,
        }
    }

    // Counts a fault.
    fn fail(&mut self) -> Refused
        ensures fails { result ≡ Refused.Failed }
        ensures counted { self.new ≡ one_more self.old }
        ensures later { self.old.faults ≤ self.new.faults }
    {
        self.faults = self.faults.saturating_add(1);
        Refused::Failed
    }
}

impl Shelf for HollowShelf {
    ghost files = { λ _. None };

    ghost faults = { λ shelf. shelf.faults };

    fn length(&mut self, _name: &str) -> Result<Option<u64>, Refused>
        ensures stated { result ≡ Ok (Some self.old.stated) }
        ensures kept { self.new ≡ self.old }
        ensures cause { HasCause self.old.faults self.new.faults result }
    {
        Ok(Some(self.stated))
    }

    fn read(&mut self, _name: &str, from: u64, into: &mut [u8]) -> Result<usize, Refused>
        ensures number { result ≡ Ok (min (length into.old) (length self.old.head - from)) }
        ensures bytes { IfOk result (λ n. take n into.new ≡ take n (drop from self.old.head)) }
        ensures rest { IfOk result (λ n. drop n into.new ≡ drop n into.old) }
        ensures within { IfOk result (λ n. n ≤ length into.old) }
        ensures kept { self.new ≡ self.old }
        ensures cause { HasCause self.old.faults self.new.faults result }
        ensures no_memory { result ≢ Err Refused.Memory }
    {
        if from >= self.head.len() as u64 {
            return Ok(0);
        }
        let left = &self.head[from as usize..];
        let n = left.len().min(into.len());
        into[..n].copy_from_slice(&left[..n]);
        Ok(n)
    }

    fn begin(&mut self, _name: &str) -> Result<(), Refused>
        ensures fails { result ≡ Err Refused.Failed }
        ensures counted { self.new ≡ one_more self.old }
        ensures cause { HasCause self.old.faults self.new.faults result }
    {
        Err(self.fail())
    }

    fn append(&mut self, _name: &str, _bytes: &[u8]) -> Result<(), Refused>
        ensures fails { result ≡ Err Refused.Failed }
        ensures counted { self.new ≡ one_more self.old }
        ensures cause { HasCause self.old.faults self.new.faults result }
    {
        Err(self.fail())
    }
}
