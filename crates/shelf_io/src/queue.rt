//! Bytes that wait: they are added at the end and taken from the front.
//! A link in memory has one for each side.

ghost use Rattle.std.specs.Prelude.{◌≡◌, ◌<◌, ◌≤◌, ◌++◌, [], length, take, drop, OnOk, OnErr};

use std::alloc::{AllocError, Global};
use std::marker::Model;

/// Bytes that wait, from `start` on. Contracts see them as a list.
#[derive(Drop)]
pub struct Queue {
    bytes: Vec<u8>,
    start: usize,
}

impl Model for Queue {
    ghost use Rattle.std.specs.Prelude.{List, ℕ, ◌≤◌, length, drop};

    ghost Value = { List ℕ };

    ghost view = { λ q. drop q.start q.bytes.items };

    ghost invariant = { λ q. q.start ≤ length q.bytes.items };
}

impl Queue {
    /// Nothing waits.
    pub fn new(alloc: Global) -> Queue
        ensures empty { result ≡ [] }
    {
        Queue {
            bytes: Vec::new(alloc),
            start: 0,
        }
    }

    /// Adds bytes at the end.
    pub fn push(&mut self, bytes: &[u8]) -> Result<(), AllocError>
        ensures added { OnOk result (self.new ≡ self.old ++ bytes.now) }
        ensures refused { OnErr result (self.new ≡ self.old) }
    {
        if self.start == self.bytes.len() {
            self.bytes.clear();
            self.start = 0;
        }
        self.bytes.extend_from_slice(bytes)?;
        Ok(())
    }

    /// Takes bytes from the front, and tells how many.
    pub fn take(&mut self, into: &mut [u8]) -> usize
        ensures within { (result ≤ length into.old) × (result ≤ length self.old) }
        ensures rest { drop result into.new ≡ drop result into.old }
        ensures bytes { take result into.new ≡ take result self.old }
        ensures end { result ≡ 0 → 0 < length into.old → self.old ≡ [] }
        ensures left { self.new ≡ drop result self.old }
    {
        let left = self.bytes.len() - self.start;
        let n = left.min(into.len());
        into[..n].copy_from_slice(&self.bytes[self.start..self.start + n]);
        self.start += n;
        n
    }
}
