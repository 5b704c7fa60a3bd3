//! What a run of a phase leaves.
//! Its sums are read from what is finished.

use eval_cache::CachePass;
use level_totals::Finished;

/// How many tiles a phase had, and how many of them the sweep posted.
#[derive(Clone, Copy, Debug, PartialEq, Eq)]
pub struct Done {
    /// The plan's number of tiles.
    pub tiles: u32,
    /// The number of tiles that were posted under the number of workers.
    pub swept: u32,
}

/// A phase whose every tile is posted.
#[derive(Drop)]
pub struct Phase<'p, 's> {
    /// How many tiles there were.
    pub done: Done,
    /// The state, with the sums.
    pub finished: Finished<'p>,
    /// The passes of the cache that the crew was given, for the next phase.
    pub passes: Vec<CachePass<'s>>,
}
