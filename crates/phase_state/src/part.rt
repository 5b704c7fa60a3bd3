//! What one tile adds.
//! It is borrowed from the room in which it was made.

use field64::Fe;
use sketch_check::Sums;

/// The part of a tile.
#[derive(Clone, Copy)]
pub enum Part<'b> {
    /// The sums over the tile's candidates, for each report of the tile in order.
    Sketch(&'b [Sums]),
    /// The sums of d over the tile's reports, for each candidate of the tile in order.
    Totals(&'b [Fe]),
}
