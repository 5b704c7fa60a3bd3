//! A taker of bytes in memory.
//! It never fails, and refuses only for want of memory.

ghost use Rattle.std.specs.Prelude.{◌≡◌, [], Some};

use crate::refused::Refused;
use crate::sink::Sink;
use std::alloc::Global;
use std::marker::Model;

/// Takes bytes into memory and never fails: the count of faults is always 0. Contracts see the bytes taken, in order.
#[derive(Drop)]
pub struct FirmSink {
    bytes: Vec<u8>,
}

impl Model for FirmSink {
    ghost use Rattle.std.specs.Prelude.{List, ℕ};

    ghost Value = { List ℕ };

    ghost view = { λ a. a.bytes.items };
}

impl FirmSink {
    /// A sink that took nothing. It takes no memory.
    pub fn new(alloc: Global) -> FirmSink
        ensures empty { result ≡ [] }
    {
        FirmSink {
            bytes: Vec::new(alloc),
        }
    }

    /// The bytes taken, in order.
    pub fn bytes(&self) -> &[u8]
        ensures taken { result.now ≡ self.now }
    {
        self.bytes.as_slice()
    }
}

impl Sink for FirmSink {
    ghost taken = { λ sink. Some sink };

    ghost faults = { λ _. 0 };

    fn write(&mut self, bytes: &[u8]) -> Result<usize, Refused> {
        self.bytes.extend_from_slice(bytes)?;
        Ok(bytes.len())
    }
}
