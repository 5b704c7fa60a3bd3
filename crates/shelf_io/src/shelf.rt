//! The trait of named files.
//! What a call owes is said where a shelf tells its content; its count of faults is always told.

ghost use Rattle.std.specs.Prelude.{◌≡◌, ◌≢◌, ◌<◌, ◌≤◌, ◌-◌, [], length, take, drop, IfSome, IfOk, OnOk, OnErr};
ghost use Rattle.std.specs.Option.{option_map};
ghost use Rattle.shelf_io.specs.Faults.{HasCause};
ghost use Rattle.shelf_io.specs.Files.{Files, IsThere, IfThere, length_under, with_bytes, with_more};

use crate::refused::Refused;

/// Named files.
pub trait Shelf {
    ghost use Rattle.shelf_io.specs.Files.{Files};
    ghost use Rattle.std.specs.Prelude.{Option, ℕ};

    /// What it holds, where it tells: the bytes under each name.
    ghost files: { Self → Option Files };

    /// How often it has failed. The count never falls.
    ghost faults: { Self → ℕ };

    /// The number of bytes under a name, and None exactly where the name is not there, which is no fault.
    /// The content stays.
    fn length(&mut self, name: &str) -> Result<Option<u64>, Refused>
        ensures found { IfSome (files self.old) (λ held. IfOk result (λ found. found ≡ length_under held name.now)) }
        ensures kept { files self.new ≡ files self.old }
        ensures cause { HasCause (faults self.old) (faults self.new) result }
        ensures no_memory { result ≢ Err Refused.Memory };

    /// Copies bytes of a name, from the byte `from` on, to the front of `into`, and tells how many. It may copy fewer than
    /// there are, but copies 0 into a nonempty `into` only where `from` is at or past the end. The rest of `into` and the
    /// content stay. Where the shelf tells, the name must be there; else a missing name is a fault.
    fn read(&mut self, name: &str, from: u64, into: &mut [u8]) -> Result<usize, Refused>
        requires there { IsThere (files self.old) name.now }
        ensures within { IfOk result (λ n. n ≤ length into.old) }
        ensures rest { IfOk result (λ n. drop n into.new ≡ drop n into.old) }
        ensures bytes { IfThere (files self.old) name.now (λ bytes.
            IfOk result (λ n. (n ≤ length bytes - from) × (take n into.new ≡ take n (drop from bytes)))) }
        ensures end { IfThere (files self.old) name.now (λ bytes. result ≡ Ok 0 → 0 < length into.old → length bytes ≤ from) }
        ensures kept { files self.new ≡ files self.old }
        ensures cause { HasCause (faults self.old) (faults self.new) result }
        ensures no_memory { result ≢ Err Refused.Memory };

    /// The name now holds no bytes, whether it was there or not; all other names stay. After a refusal all is as before.
    fn begin(&mut self, name: &str) -> Result<(), Refused>
        ensures begun { OnOk result (files self.new ≡ option_map (with_bytes name.now []) (files self.old)) }
        ensures refused { OnErr result (files self.new ≡ files self.old) }
        ensures cause { HasCause (faults self.old) (faults self.new) result };

    /// Adds `bytes` behind those under a name; all other names stay. After a refusal a told content is as before. Where
    /// the shelf tells, the name must be there; else a missing name is a fault.
    fn append(&mut self, name: &str, bytes: &[u8]) -> Result<(), Refused>
        requires there { IsThere (files self.old) name.now }
        ensures appended { OnOk result (files self.new ≡ option_map (with_more name.now bytes.now) (files self.old)) }
        ensures refused { OnErr result (files self.new ≡ files self.old) }
        ensures cause { HasCause (faults self.old) (faults self.new) result };
}
