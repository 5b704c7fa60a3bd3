//! Named files in memory, some of whose calls fail.
//! For tests of what stands above: it is told by kind and number which calls are to fail.

ghost use Rattle.std.specs.Prelude.{◌≡◌, ◌≢◌, ◌<◌, ◌≤◌, ◌-◌, [], Some, length, take, drop, IsSome, IfSome, IfOk, OnOk, OnErr};
ghost use Rattle.std.specs.Option.{option_map};
ghost use Rattle.std.specs.FinMap as map;
ghost use Rattle.shelf_io.specs.Faults.{HasCause};
ghost use Rattle.shelf_io.specs.Files.{Files, length_under, with_bytes, with_more};
ghost use Rattle.shelf_io.specs.Plans.{fresh, Follows};

use crate::call::Call;
use crate::firm_shelf::FirmShelf;
use crate::plan::Plan;
use crate::refused::Refused;
use crate::shelf::Shelf;
use std::alloc::{AllocError, Global};
use std::marker::Model;

/// Named files in memory, with calls that are to fail. Contracts see the map from names to bytes, and the plan of
/// those calls.
#[derive(Drop)]
pub struct MemoryShelf {
    inner: FirmShelf,
    plan: Plan,
}

impl Model for MemoryShelf {
    ghost use Rattle.std.specs.Coded.{coded_ℕ, coded_list, coded×};
    ghost use Rattle.std.specs.FinMap as map;
    ghost use Rattle.shelf_io.specs.Files.{Files};
    ghost use Rattle.shelf_io.specs.Plans.{Planned, planned_code};
    ghost use Rattle.shelf_io.specs.contracts.call.Call.{the_row};

    ghost Value = { Files × Planned };

    ghost coded = { coded× (map.code (coded_list coded_ℕ) (coded_list coded_ℕ)) (planned_code the_row.coded) };

    ghost view = { λ a. (a.inner, a.plan) };
}

impl MemoryShelf {
    /// A shelf with no name. A pair (call, k) in `fail` makes the k-th call of that kind fail, counted from 1. It takes no
    /// memory.
    pub fn new(alloc: Global, fail: Vec<(Call, u64)>) -> MemoryShelf
        ensures empty { result ≡ (map.empty, fresh fail.items) }
    {
        MemoryShelf {
            inner: FirmShelf::new(alloc),
            plan: Plan::new(fail),
        }
    }

    /// The shelf, where the name now holds these bytes; all other names stay, and no call was made. After `AllocError` the
    /// shelf is given up.
    pub fn with(self, name: &str, bytes: &[u8]) -> Result<MemoryShelf, AllocError>
        ensures holds { IfOk result (λ shelf. shelf ≡ (with_bytes name.now bytes.now self.0, self.1)) }
    {
        let MemoryShelf { inner, plan } = self;
        Ok(MemoryShelf {
            inner: inner.with(name, bytes)?,
            plan,
        })
    }

    /// The bytes under a name, and None exactly where it is not there.
    pub fn file(&self, name: &str) -> Option<&[u8]>
        ensures bytes { option_map (λ bytes. bytes.now) result ≡ map.get self.now.0 name.now }
    {
        self.inner.file(name)
    }
}

impl Shelf for MemoryShelf {
    ghost files = { λ shelf. Some shelf.0 };

    ghost faults = { λ shelf. shelf.1.faults };

    fn length(&mut self, name: &str) -> Result<Option<u64>, Refused>
        ensures found { IfOk result (λ found. found ≡ length_under self.old.0 name.now) }
        ensures kept { self.new.0 ≡ self.old.0 }
        ensures cause { HasCause self.old.1.faults self.new.1.faults result }
        ensures no_memory { result ≢ Err Refused.Memory }
        ensures planned { Follows Call.Length self.old.1 self.new.1 result }
    {
        if self.plan.fails(Call::Length) {
            return Err(Refused::Failed);
        }
        self.inner.length(name)
    }

    fn read(&mut self, name: &str, from: u64, into: &mut [u8]) -> Result<usize, Refused>
        requires there { IsSome (map.get self.old.0 name.now) }
        ensures within { IfOk result (λ n. n ≤ length into.old) }
        ensures rest { IfOk result (λ n. drop n into.new ≡ drop n into.old) }
        ensures bytes { IfSome (map.get self.old.0 name.now) (λ bytes.
            IfOk result (λ n. (n ≤ length bytes - from) × (take n into.new ≡ take n (drop from bytes)))) }
        ensures end { IfSome (map.get self.old.0 name.now) (λ bytes. result ≡ Ok 0 → 0 < length into.old → length bytes ≤ from) }
        ensures kept { self.new.0 ≡ self.old.0 }
        ensures cause { HasCause self.old.1.faults self.new.1.faults result }
        ensures no_memory { result ≢ Err Refused.Memory }
        ensures planned { Follows Call.Read self.old.1 self.new.1 result }
    {
        if self.plan.fails(Call::Read) {
            return Err(Refused::Failed);
        }
        self.inner.read(name, from, into)
    }

    fn begin(&mut self, name: &str) -> Result<(), Refused>
        ensures begun { OnOk result (self.new.0 ≡ with_bytes name.now [] self.old.0) }
        ensures refused { OnErr result (self.new.0 ≡ self.old.0) }
        ensures cause { HasCause self.old.1.faults self.new.1.faults result }
        ensures planned { Follows Call.Begin self.old.1 self.new.1 result }
    {
        if self.plan.fails(Call::Begin) {
            return Err(Refused::Failed);
        }
        self.inner.begin(name)
    }

    fn append(&mut self, name: &str, bytes: &[u8]) -> Result<(), Refused>
        requires there { IsSome (map.get self.old.0 name.now) }
        ensures appended { OnOk result (self.new.0 ≡ with_more name.now bytes.now self.old.0) }
        ensures refused { OnErr result (self.new.0 ≡ self.old.0) }
        ensures cause { HasCause self.old.1.faults self.new.1.faults result }
        ensures planned { Follows Call.Append self.old.1 self.new.1 result }
    {
        if self.plan.fails(Call::Append) {
            return Err(Refused::Failed);
        }
        self.inner.append(name, bytes)
    }
}
