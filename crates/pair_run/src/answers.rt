//! What a walk answers, and why it has no answer.
//! Each error but `Link` and `Memory` is an end of the walk that both sides heard.

ghost use Rattle.std.specs.Prelude.{◌≡◌};

use definitions::Sequence;
use frontier_walk::{Heavy, PruneError};
use peer_exchange::ExchangeError;
use std::alloc::AllocError;

/// What a walk found.
#[derive(Debug, Drop, PartialEq, Eq)]
pub struct Answer {
    /// The number of reports in the batch.
    pub sealed: u32,
    /// The number of reports that passed the last level walked.
    pub passed: u32,
    /// The number of levels walked.
    pub levels: u16,
    /// The heavy strings in ascending order, each with its count.
    pub heavy: Sequence<Heavy>,
}

/// Why a walk has no answer.
#[derive(Clone, Copy, Debug, PartialEq, Eq)]
pub enum PairError {
    /// The next level would have more candidates than the cap.
    Cap {
        /// The level that was walked, counted from 1.
        level: u16,
        /// The number of candidates that the next level would have.
        wanted: u32,
    },
    /// The link failed, and its count of faults rose in the call (or stands at 2^64 - 1).
    Link,
    /// What a side received is not the message that it expects.
    PeerMessage {
        /// The level of the expected message.
        level: u16,
        /// Its kind: 1 sums, 2 sigmas, 3 totals.
        kind: u8,
        /// The first offset at fault, in bytes from the message's start.
        at: u32,
    },
    /// The two sides' sums differ.
    Views {
        /// The level.
        level: u16,
        /// The kind of the messages that were added: 2 sigmas, 3 totals.
        kind: u8,
        /// The first place at which they differ, counted from 0.
        place: u32,
        /// Side 0's number there.
        left: u64,
        /// Side 1's number there.
        right: u64,
    },
    /// There was no memory.
    Memory,
}

impl From<ExchangeError> for PairError {
    ghost use Rattle.pair_run.specs.Failures.{error_of};

    ghost from_gives = { λ fault e. e ≡ error_of fault };

    fn from(fault: ExchangeError) -> PairError {
        match fault {
            ExchangeError::Link => PairError::Link,
            ExchangeError::PeerMessage { level, kind, at } => {
                PairError::PeerMessage { level, kind, at }
            }
            ExchangeError::Memory => PairError::Memory,
        }
    }
}

impl From<AllocError> for PairError {
    ghost use Rattle.pair_run.specs.declared.answers.PairError.TheVariants.{Memory};

    ghost from_gives = { λ _ e. e ≡ Memory };

    fn from(_refused: AllocError) -> PairError {
        PairError::Memory
    }
}

impl From<PruneError> for PairError {
    ghost use Rattle.pair_run.specs.Prunings.{cap_of};

    ghost from_gives = { λ fault e. e ≡ cap_of fault };

    fn from(fault: PruneError) -> PairError {
        match fault {
            PruneError::Cap { level, wanted } => PairError::Cap { level, wanted },
            PruneError::Memory => PairError::Memory,
        }
    }
}
