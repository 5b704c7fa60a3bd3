//! Why a share file was refused, or why a reader stopped.
//! The first four speak of the file, the last two of the shelf and of memory.

use shelf_io::Refused;
use std::alloc::AllocError;

/// Why a share file was not opened, or its next record not read.
#[derive(Clone, Copy, Debug, PartialEq, Eq)]
pub enum FileError {
    /// There is no file of this name.
    Missing,
    /// The file has more than 2^28 bytes.
    TooLong {
        /// The bytes of the file.
        length: u64,
    },
    /// A byte of the header is missing or wrong.
    Header {
        /// The first such offset, below 8.
        at: u32,
    },
    /// A record is not whole.
    Cut {
        /// The offset at which the record begins.
        at: u32,
    },
    /// The shelf failed, and its count of faults rose.
    Shelf,
    /// There was no memory.
    Memory,
}

impl From<Refused> for FileError {
    ghost use Rattle.std.specs.Prelude.{◌≡◌};
    ghost use Rattle.share_format.specs.Causes.{error_of};

    ghost from_gives = { λ refused e. e ≡ error_of refused };

    fn from(refused: Refused) -> FileError {
        match refused {
            Refused::Failed => FileError::Shelf,
            Refused::Memory => FileError::Memory,
        }
    }
}

impl From<AllocError> for FileError {
    ghost use Rattle.std.specs.Prelude.{◌≡◌};
    ghost use Rattle.share_format.specs.declared.file_error.FileError.TheVariants.{Memory};

    ghost from_gives = { λ _ e. e ≡ Memory };

    fn from(_refused: AllocError) -> FileError {
        FileError::Memory
    }
}
