//! What a walk is told.
//! The first fields decide the answer; the others only how the work is divided.

use seed_expand::Seed;

/// What a walk is told.
#[derive(Clone, Copy, Debug, PartialEq, Eq)]
pub struct WalkSettings {
    /// The number of levels, which is the strings' number of bits: 8 to `MOST_BITS`.
    pub bits: u16,
    /// The least number of reports that makes a prefix heavy: at least 1.
    pub threshold: u64,
    /// The most candidates of a level: 2 to 65536.
    pub cap: u32,
    /// The number of workers of each side: 1 to 64.
    pub workers: u32,
    /// The number of nodes that a shard of the cache keeps: 1 to 65536.
    pub cache: u32,
    /// The seed of the check's coins.
    pub verify: Seed,
    /// Which tiles workers leave to the sweep: each whose number, counted from 1, is a multiple of this; none where it is 0.
    pub drill: u32,
    /// The reports of a tile: at least 1.
    pub by_reports: u32,
    /// The candidates of a tile: at least 1.
    pub by_candidates: u32,
}
