//! One of the system's writers as a sink.
//! It tells nothing: what the system takes is no part of any contract.

ghost use Rattle.std.specs.Prelude.{◌≡◌, ◌<◌, None, length};

use crate::refused::Refused;
use crate::sink::Sink;
use crate::system_fault::failed;
use std::io::Write;
use std::marker::Model;

/// A writer of std. It tells nothing of what was taken; contracts see the count of faults alone, which is raised at each
/// error of the system and where the writer takes nothing of something, and stops at 2^64 - 1.
#[derive(Drop)]
pub struct StdSink<W: Write> {
    writer: W,
    faults: u64,
}

impl<W: Write> Model for StdSink<W> {
    ghost use Rattle.std.specs.Prelude.{ℕ};

    ghost Value = { ℕ };

    ghost view = { λ a. a.faults };
}

impl<W: Write> StdSink<W> {
    /// A sink that has not failed. It takes no memory.
    pub fn new(writer: W) -> StdSink<W>
        ensures none { result ≡ 0 }
    {
        StdSink { writer, faults: 0 }
    }
}

impl<W: Write> Sink for StdSink<W> {
    ghost taken = { λ _. None };

    ghost faults = { λ sink. sink };

    fn write(&mut self, bytes: &[u8]) -> Result<usize, Refused> {
        match self.writer.write(bytes) {
            Ok(n) if n > 0 || bytes.is_empty() => Ok(n),
            _ => Err(failed(&mut self.faults)),
        }
    }
}
