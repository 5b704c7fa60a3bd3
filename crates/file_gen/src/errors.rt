//! Why the share files of a strings file are not made.
//! The strings file comes first, then its lines, then the writing.

ghost use Rattle.std.specs.Prelude.{◌≡◌, ◌⊎◌};

use shelf_io::Refused;
use text_strings::LinesError;

/// Why the files are not made.
#[derive(Clone, Copy, Debug, PartialEq, Eq)]
pub enum GenError {
    /// The strings file is not there.
    Missing,
    /// The strings file has more than 2^28 bytes.
    TooLong,
    /// Its lines give no strings: `Memory` for want of memory.
    Lines(LinesError),
    /// A call of the shelf failed.
    Shelf,
    /// Memory was wanting.
    Memory,
}

/// What a refused call of the shelf comes to.
pub(crate) fn error_of(refused: Refused) -> GenError
    ensures shelf { result ≡ GenError.Shelf → refused ≡ Refused.Failed }
    ensures other { (result ≡ GenError.Shelf) ⊎ (result ≡ GenError.Memory) }
{
    match refused {
        Refused::Failed => GenError::Shelf,
        Refused::Memory => GenError::Memory,
    }
}
