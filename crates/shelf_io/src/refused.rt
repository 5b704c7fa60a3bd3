//! Why a call of the outside gave up.
//! Each fallible call of the traits answers with it, so that a fault and want of memory are told apart.

ghost use Rattle.std.specs.Prelude.{◌≡◌};

use std::alloc::AllocError;

/// Why a call of the outside gave up. After either, a told content is as it was before the call.
#[derive(Clone, Copy, Debug, PartialEq, Eq)]
pub enum Refused {
    /// The outside failed, and the object's count of faults rose (or stands at 2^64 - 1).
    Failed,
    /// There was no memory. `length`, `read` and `receive` never answer it.
    Memory,
}

impl From<AllocError> for Refused {
    ghost use Rattle.shelf_io.specs.declared.refused.Refused.TheVariants.{Memory};

    ghost from_gives = { λ _ e. e ≡ Memory };

    fn from(_refused: AllocError) -> Refused {
        Refused::Memory
    }
}
