//! Why the frequent strings are not found.
//! The strings come first, then the walk, then the texts.

use file_gen::GenError;
use pair_run::PairError;

/// Why there are no texts.
#[derive(Clone, Copy, Debug, PartialEq, Eq)]
pub enum FindError {
    /// The strings file is refused, or could not be read; or the workload has too many strings: `Shelf` where the shelf failed,
    /// `Memory` and `Lines` of `Memory` for want of memory.
    Strings(GenError),
    /// The walk has no answer: `Link` where the link failed, `Memory` for want of memory for the shares or the walk.
    Walk(PairError),
    /// There was no memory for the texts.
    Memory,
}
