//! What the pairs of a list of strings are made with.
//! Two runs with the same settings and the same strings make the same pairs.

use seed_expand::Seed;

/// What the pairs of a list of strings are made with.
#[derive(Clone, Copy, Debug, PartialEq, Eq)]
pub struct PairSettings {
    /// The bytes of a string, 1 to 32.
    pub width: u8,
    /// The seed that the coins of every line come from.
    pub master: Seed,
    /// The number in the first 8 bytes of every id.
    pub tag: u64,
}
