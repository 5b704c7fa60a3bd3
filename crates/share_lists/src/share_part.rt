//! Some of the shares of a file, one list behind another.
//! The shares of a file are read so that not all of them stand in memory at once.

ghost use Rattle.std.specs.Prelude.{◌≡◌};

use definitions::Sequence;
use idpf_eval::Share;

/// The next shares of a file, and whether it may have further records.
#[derive(Debug, Drop)]
pub struct SharePart {
    /// The shares of the well-formed records that were read, in the order of the file.
    pub shares: Sequence<Share>,
    /// Whether the reader may stand before a further record: false only behind the last.
    pub more: bool,
}
