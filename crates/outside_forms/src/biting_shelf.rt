//! A shelf in memory that gives little at a time.
//! For tests of what stands above: however a shelf cuts its reads, the same is to be read.

ghost use Rattle.std.specs.Prelude.{◌≡◌, ◌≢◌, ◌<◌, ◌≤◌, ◌-◌, [], Some, length, take, drop, IsSome, IfSome, IfOk, OnOk, OnErr};
ghost use Rattle.std.specs.Option.{option_map};
ghost use Rattle.std.specs.FinMap.{get};
ghost use Rattle.shelf_io.specs.Faults.{HasCause};
ghost use Rattle.shelf_io.specs.Files.{length_under, with_bytes, with_more};
ghost use Rattle.shelf_io.specs.Plans.{Follows};

use shelf_io::{Call, MemoryShelf, Refused, Shelf};
use std::marker::Model;

/// Named files in memory that are given few bytes a read. It tells what the shelf below it tells. Contracts see that shelf, and
/// the most bytes of a read.
#[derive(Drop)]
pub struct BitingShelf {
    inner: MemoryShelf,
    most: usize,
}

impl Model for BitingShelf {
    ghost use Rattle.std.specs.Prelude.{ℕ, ◌<◌};
    ghost use Rattle.std.specs.Coded.{coded_ℕ, coded_list, coded×};
    ghost use Rattle.std.specs.FinMap as map;
    ghost use Rattle.shelf_io.specs.Files.{Files};
    ghost use Rattle.shelf_io.specs.Plans.{Planned, planned_code};
    ghost use Rattle.shelf_io.specs.contracts.call.Call.{the_row};

    ghost Value = { (Files × Planned) × ℕ };

    ghost coded = { coded× (coded× (map.code (coded_list coded_ℕ) (coded_list coded_ℕ)) (planned_code the_row.coded)) coded_ℕ };

    ghost view = { λ a. (a.inner, a.most) };

    ghost invariant = { λ a. 0 < a.most };
}

impl BitingShelf {
    /// The shelf, which gives from now on at most `most` bytes a read. It takes no memory.
    pub fn biting(shelf: MemoryShelf, most: usize) -> BitingShelf
        requires some { 0 < most }
        ensures made { result ≡ (shelf, most) }
    {
        BitingShelf { inner: shelf, most }
    }

    /// The bytes under a name, and None exactly where it is not there.
    pub fn file(&self, name: &str) -> Option<&[u8]>
        ensures bytes { option_map (λ bytes. bytes.now) result ≡ get self.now.0.0 name.now }
    {
        self.inner.file(name)
    }
}

impl Shelf for BitingShelf {
    ghost files = { λ shelf. Some shelf.0.0 };

    ghost faults = { λ shelf. shelf.0.1.faults };

    fn length(&mut self, name: &str) -> Result<Option<u64>, Refused>
        ensures found { IfOk result (λ found. found ≡ length_under self.old.0.0 name.now) }
        ensures kept { self.new.0.0 ≡ self.old.0.0 }
        ensures cause { HasCause self.old.0.1.faults self.new.0.1.faults result }
        ensures no_memory { result ≢ Err Refused.Memory }
        ensures planned { Follows Call.Length self.old.0.1 self.new.0.1 result }
        ensures most { self.new.1 ≡ self.old.1 }
    {
        self.inner.length(name)
    }

    fn read(&mut self, name: &str, from: u64, into: &mut [u8]) -> Result<usize, Refused>
        requires there { IsSome (get self.old.0.0 name.now) }
        ensures bites { IfOk result (λ n. n ≤ self.old.1) }
        ensures within { IfOk result (λ n. n ≤ length into.old) }
        ensures rest { IfOk result (λ n. drop n into.new ≡ drop n into.old) }
        ensures bytes { IfSome (get self.old.0.0 name.now) (λ bytes.
            IfOk result (λ n. (n ≤ length bytes - from) × (take n into.new ≡ take n (drop from bytes)))) }
        ensures end { IfSome (get self.old.0.0 name.now) (λ bytes. result ≡ Ok 0 → 0 < length into.old → length bytes ≤ from) }
        ensures kept { self.new.0.0 ≡ self.old.0.0 }
        ensures cause { HasCause self.old.0.1.faults self.new.0.1.faults result }
        ensures no_memory { result ≢ Err Refused.Memory }
        ensures planned { Follows Call.Read self.old.0.1 self.new.0.1 result }
        ensures most { self.new.1 ≡ self.old.1 }
    {
        let n = self.most.min(into.len());
        self.inner.read(name, from, &mut into[..n])
    }

    fn begin(&mut self, name: &str) -> Result<(), Refused>
        ensures begun { OnOk result (self.new.0.0 ≡ with_bytes name.now [] self.old.0.0) }
        ensures refused { OnErr result (self.new.0.0 ≡ self.old.0.0) }
        ensures cause { HasCause self.old.0.1.faults self.new.0.1.faults result }
        ensures planned { Follows Call.Begin self.old.0.1 self.new.0.1 result }
        ensures most { self.new.1 ≡ self.old.1 }
    {
        self.inner.begin(name)
    }

    fn append(&mut self, name: &str, bytes: &[u8]) -> Result<(), Refused>
        requires there { IsSome (get self.old.0.0 name.now) }
        ensures appended { OnOk result (self.new.0.0 ≡ with_more name.now bytes.now self.old.0.0) }
        ensures refused { OnErr result (self.new.0.0 ≡ self.old.0.0) }
        ensures cause { HasCause self.old.0.1.faults self.new.0.1.faults result }
        ensures planned { Follows Call.Append self.old.0.1 self.new.0.1 result }
        ensures most { self.new.1 ≡ self.old.1 }
    {
        self.inner.append(name, bytes)
    }
}
