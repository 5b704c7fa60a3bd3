//! A taker of bytes in memory, some of whose calls fail.
//! For tests of what stands above: it is told by number which calls are to fail.

ghost use Rattle.std.specs.Prelude.{◌≡◌, ◌<◌, ◌≤◌, ◌++◌, [], Some, length, take, IfOk, OnErr};
ghost use Rattle.shelf_io.specs.Faults.{HasCause};
ghost use Rattle.shelf_io.specs.Plans.{fresh, Follows};

use crate::call::Call;
use crate::firm_sink::FirmSink;
use crate::plan::Plan;
use crate::refused::Refused;
use crate::sink::Sink;
use std::alloc::Global;
use std::marker::Model;

/// Takes bytes into memory, with calls that are to fail. Contracts see the bytes taken, in order, and the plan of those calls.
#[derive(Drop)]
pub struct MemorySink {
    inner: FirmSink,
    plan: Plan,
}

impl Model for MemorySink {
    ghost use Rattle.std.specs.Prelude.{List, ℕ};
    ghost use Rattle.shelf_io.specs.Plans.{Planned};

    ghost Value = { List ℕ × Planned };

    ghost view = { λ a. (a.inner, a.plan) };
}

impl MemorySink {
    /// A sink that took nothing. A pair (call, k) in `fail` makes the k-th call of that kind fail, counted from 1. It takes
    /// no memory.
    pub fn new(alloc: Global, fail: Vec<(Call, u64)>) -> MemorySink
        ensures empty { result ≡ ([], fresh fail.items) }
    {
        MemorySink {
            inner: FirmSink::new(alloc),
            plan: Plan::new(fail),
        }
    }

    /// The bytes taken, in order.
    pub fn bytes(&self) -> &[u8]
        ensures taken { result.now ≡ self.now.0 }
    {
        self.inner.bytes()
    }
}

impl Sink for MemorySink {
    ghost taken = { λ sink. Some sink.0 };

    ghost faults = { λ sink. sink.1.faults };

    fn write(&mut self, bytes: &[u8]) -> Result<usize, Refused>
        ensures within { IfOk result (λ n. n ≤ length bytes.now) }
        ensures some { IfOk result (λ n. 0 < length bytes.now → 0 < n) }
        ensures took { IfOk result (λ n. self.new.0 ≡ self.old.0 ++ take n bytes.now) }
        ensures refused { OnErr result (self.new.0 ≡ self.old.0) }
        ensures cause { HasCause self.old.1.faults self.new.1.faults result }
        ensures planned { Follows Call.Write self.old.1 self.new.1 result }
    {
        if self.plan.fails(Call::Write) {
            return Err(Refused::Failed);
        }
        self.inner.write(bytes)
    }
}
