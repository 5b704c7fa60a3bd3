//! A taker of bytes in memory that takes little at a time.
//! For tests of what stands above: however a sink cuts its writes, it is to get the same.

ghost use Rattle.std.specs.Prelude.{◌≡◌, ◌<◌, ◌≤◌, ◌++◌, Some, length, take, IfOk, OnErr};
ghost use Rattle.shelf_io.specs.Faults.{HasCause};
ghost use Rattle.shelf_io.specs.Plans.{Follows};

use shelf_io::{Call, MemorySink, Refused, Sink};
use std::marker::Model;

/// Takes few bytes a write into memory. It tells what the sink below it tells. Contracts see that sink, and the most bytes of a
/// write.
#[derive(Drop)]
pub struct BitingSink {
    inner: MemorySink,
    most: usize,
}

impl Model for BitingSink {
    ghost use Rattle.std.specs.Prelude.{List, ℕ, ◌<◌};
    ghost use Rattle.shelf_io.specs.Plans.{Planned};

    ghost Value = { (List ℕ × Planned) × ℕ };

    ghost view = { λ a. (a.inner, a.most) };

    ghost invariant = { λ a. 0 < a.most };
}

impl BitingSink {
    /// The sink, which takes from now on at most `most` bytes a write. It takes no memory.
    pub fn biting(sink: MemorySink, most: usize) -> BitingSink
        requires some { 0 < most }
        ensures made { result ≡ (sink, most) }
    {
        BitingSink { inner: sink, most }
    }

    /// The bytes taken, in order.
    pub fn bytes(&self) -> &[u8]
        ensures taken { result.now ≡ self.now.0.0 }
    {
        self.inner.bytes()
    }
}

impl Sink for BitingSink {
    ghost taken = { λ sink. Some sink.0.0 };

    ghost faults = { λ sink. sink.0.1.faults };

    fn write(&mut self, bytes: &[u8]) -> Result<usize, Refused>
        ensures bites { IfOk result (λ n. n ≤ self.old.1) }
        ensures within { IfOk result (λ n. n ≤ length bytes.now) }
        ensures some { IfOk result (λ n. 0 < length bytes.now → 0 < n) }
        ensures took { IfOk result (λ n. self.new.0.0 ≡ self.old.0.0 ++ take n bytes.now) }
        ensures refused { OnErr result (self.new.0.0 ≡ self.old.0.0) }
        ensures cause { HasCause self.old.0.1.faults self.new.0.1.faults result }
        ensures planned { Follows Call.Write self.old.0.1 self.new.0.1 result }
        ensures most { self.new.1 ≡ self.old.1 }
    {
        let n = self.most.min(bytes.len());
        self.inner.write(&bytes[..n])
    }
}
