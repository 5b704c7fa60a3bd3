//! What a level's pruning ends in: the next level's frontier, the answer, or a refusal.
//! The only refusals are too many candidates and want of memory.

ghost use Rattle.std.specs.Prelude.{◌≡◌};

use crate::frontiers::Frontier;
use crate::heavies::Heavy;
use std::alloc::AllocError;

/// What follows a level.
#[derive(Debug, Drop)]
pub enum Next {
    /// The frontier of the next level.
    Level(Frontier),
    /// The answer: the survivors in order with their totals, of the last level or of one without survivors.
    Done(Vec<Heavy>),
}

/// Why a level has no next one and no answer.
#[derive(Clone, Copy, Debug, PartialEq, Eq)]
pub enum PruneError {
    /// The next level would have more candidates than the cap.
    Cap {
        /// The level that was pruned, counted from 1.
        level: u16,
        /// The number of candidates that the next level would have.
        wanted: u32,
    },
    /// There was no memory for the survivors or for the next candidates.
    Memory,
}

impl From<AllocError> for PruneError {
    ghost use Rattle.frontier_walk.specs.declared.outcomes.PruneError.TheVariants.{Memory};

    ghost from_gives = { λ _ e. e ≡ Memory };

    fn from(_refused: AllocError) -> PruneError {
        PruneError::Memory
    }
}
