//! Why a record was not read.
//! It names the first level at fault; within a level the byte of the bits comes before the numbers.

use std::alloc::AllocFailed;

/// Why a record was not read.
#[derive(Clone, Copy, Debug, PartialEq, Eq)]
pub enum RecordError {
    /// The byte of the bits of this level, counted from 1, has a further bit set.
    Bits {
        /// The level, counted from 1.
        level: u16,
    },
    /// A number of this level, counted from 1, is not below the modulus.
    Element {
        /// The level, counted from 1.
        level: u16,
    },
    /// There was no memory for the levels.
    Memory,
}

impl<T: Drop> From<AllocFailed<T>> for RecordError {
    ghost use Rattle.std.specs.Prelude.{◌≡◌};
    ghost use Rattle.share_format.specs.declared.record_error.RecordError.TheVariants.{Memory};

    ghost from_gives = { λ _ e. e ≡ Memory };

    fn from(_refused: AllocFailed<T>) -> RecordError {
        RecordError::Memory
    }
}
