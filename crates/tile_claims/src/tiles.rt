//! A tile: some reports by some candidates.
//! The work of one phase is cut into tiles, and each worker takes one at a time.

/// The reports `r0..r1` by the candidates `c0..c1`, the ends left out. The places are counted from 0.
#[derive(Clone, Copy, Debug, PartialEq, Eq)]
pub struct Tile {
    pub r0: u32,
    pub r1: u32,
    pub c0: u32,
    pub c1: u32,
}
