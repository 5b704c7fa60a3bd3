//! What may happen at one side in a phase.
//! Each step is the definitions' event of a side of the same name.

use prefix_bits::Prefix;

/// What may happen at one side. A worker is named by its number, a report by its place in the batch.
#[derive(Clone, Copy, Debug)]
pub enum Step {
    /// The worker draws the next tile. Enabled where it holds none and has not been told that there is none.
    Claim(u32),
    /// The worker gives its tile up. Enabled where it holds one.
    Abandon(u32),
    /// The report is evaluated at the prefix, into the cache. Enabled for a report of the batch and a prefix of at least one
    /// bit and no more than the strings have, where the cache does not have it.
    Fill(u32, Prefix),
    /// The cache's entry is dropped. Enabled where there is one.
    Evict(u32, Prefix),
    /// The worker posts its tile. Enabled where it holds one; a tile that is posted already is not added again.
    Post(u32),
    /// The lowest tile that is not posted is posted, under the number of the workers. Enabled where each worker has been told
    /// that there is no further tile, and a tile is not posted.
    Sweep,
}
