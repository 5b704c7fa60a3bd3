//! Why a run over two share files has no texts.
//! The files come first, then their widths, then the walk.

use pair_run::PairError;
use prefix_bits::Side;
use share_format::FileError;

/// Why a run has no texts.
#[derive(Clone, Copy, Debug, PartialEq, Eq)]
pub enum RunError {
    /// A side's share file is refused, or could not be read.
    File {
        /// The side of the file.
        side: Side,
        /// Why it is refused: `Shelf` where the shelf failed, `Memory` for want of memory.
        error: FileError,
    },
    /// Both files are whole, and their widths differ.
    Widths {
        /// The width of side 0's file in bytes.
        zero: u8,
        /// The width of side 1's file in bytes.
        one: u8,
    },
    /// The walk has no answer: `Link` where the link failed, `Memory` for want of memory.
    Walk(PairError),
    /// There was no memory for the texts.
    Memory,
}
