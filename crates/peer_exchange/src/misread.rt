//! Why bytes were not read as a message.
//! It knows neither kind nor level: what calls the reader adds them.

ghost use Rattle.std.specs.Prelude.{◌≡◌};

use std::alloc::{AllocError, AllocFailed};

/// Why bytes were not read as a message.
#[derive(Clone, Copy)]
pub enum Misread {
    /// The first offset at fault.
    At(u32),
    /// There was no memory.
    Memory,
}

impl<T: Drop> From<AllocFailed<T>> for Misread {
    ghost use Rattle.peer_exchange.specs.declared.misread.Misread.TheVariants.{Memory};

    ghost from_gives = { λ _ e. e ≡ Memory };

    fn from(_refused: AllocFailed<T>) -> Misread {
        Misread::Memory
    }
}
