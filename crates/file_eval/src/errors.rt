//! Why a share file gives no values at a prefix.
//! The file comes first, then the length of the prefix, then the records.

use share_format::FileError;

/// Why there are no texts.
#[derive(Clone, Copy, Debug, PartialEq, Eq)]
pub enum EvalError {
    /// The share file is refused, or could not be read: `Shelf` where the shelf failed, `Memory` for want of memory.
    File(FileError),
    /// The file is whole, and the prefix has more bits than its strings.
    LongPrefix {
        /// The number of bits of the prefix.
        bits: u16,
        /// The width of the strings, in bytes.
        width: u8,
    },
    /// There was no memory for the texts.
    Memory,
}
