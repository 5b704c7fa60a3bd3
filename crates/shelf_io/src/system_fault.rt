//! The count of the system's faults.
//! The adapters raise it at each error of the system.

ghost use Rattle.std.specs.Prelude.{◌≡◌, ◌≤◌};
ghost use Rattle.shelf_io.specs.Faults.{Rose};

use crate::refused::Refused;

/// Counts a fault; the count stops at 2^64 - 1.
pub fn failed(faults: &mut u64) -> Refused
    ensures value { result ≡ Refused.Failed }
    ensures rose { Rose faults.old faults.new }
    ensures later { faults.old ≤ faults.new }
{
    *faults = faults.saturating_add(1);
    Refused::Failed
}
