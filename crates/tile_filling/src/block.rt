//! What a tile is over: its live reports and its candidates, with the fronts of the candidates.
//! A front is one bit shorter than its candidate; candidates that follow one another may share one.

use idpf_eval::Share;
use prefix_bits::{Prefix, Side};
use seed_expand::Seed;

/// The reports and the candidates of a tile.
#[derive(Drop)]
pub(crate) struct Block<'t> {
    pub side: Side,
    pub level: u16,
    pub verify: Seed,
    pub shares: &'t [Share],
    /// The tile's live reports, as places in `shares`.
    pub live: &'t [u32],
    /// The place of the first candidate in the whole list.
    pub first: u32,
    pub candidates: &'t [Prefix],
    /// From level 2 on, the fronts of the candidates; below it nothing is said of them.
    pub fronts: &'t [Prefix],
    /// For each candidate, the place of its front.
    pub places: &'t [usize],
}
