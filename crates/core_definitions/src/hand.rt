//! What a worker of a phase has in hand.
//! The definitions of specs/ say how each event changes it.

/// A worker's hand.
#[derive(Clone, Copy, Debug, PartialEq, Eq)]
pub enum Hand {
    /// The worker holds no tile, and may claim one.
    Free,
    /// The worker holds the tile of this number.
    Holding(u32),
    /// The worker claimed past the last tile, and holds none.
    Finished,
}
