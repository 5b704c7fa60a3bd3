//! The trait of a taker of bytes.
//! What a call owes is said where a sink tells what it took; its count of faults is always told.

ghost use Rattle.std.specs.Prelude.{◌≡◌, ◌<◌, ◌≤◌, length, take, IfOk, OnErr};
ghost use Rattle.shelf_io.specs.Faults.{HasCause};
ghost use Rattle.shelf_io.specs.Texts.{Grew};

use crate::refused::Refused;

/// Takes bytes.
pub trait Sink {
    ghost use Rattle.std.specs.Prelude.{Option, List, ℕ};

    /// The bytes taken, where it tells.
    ghost taken: { Self → Option (List ℕ) };

    /// How often it has failed. The count never falls.
    ghost faults: { Self → ℕ };

    /// Takes the first bytes of `bytes`, at least one where there is one, and tells how many. After a refusal a told
    /// content is as before.
    fn write(&mut self, bytes: &[u8]) -> Result<usize, Refused>
        ensures within { IfOk result (λ n. n ≤ length bytes.now) }
        ensures some { IfOk result (λ n. 0 < length bytes.now → 0 < n) }
        ensures took { IfOk result (λ n. Grew (taken self.old) (taken self.new) (take n bytes.now)) }
        ensures refused { OnErr result (taken self.new ≡ taken self.old) }
        ensures cause { HasCause (faults self.old) (faults self.new) result };
}
