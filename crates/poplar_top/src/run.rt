//! `run`: the frequent strings of two share files, from the words' settings to texts in memory.
//! The work is `file_run`'s; this gives its errors the reasons to stop that all commands have.

ghost use Rattle.std.specs.Prelude.{◌≡◌};
ghost use Rattle.poplar_top.specs.RunStops.{walk_stop, run_stop};

use crate::refusal::Refusal;
use crate::stop::{Stop, stop_of_file};
use crate::walk_refusal::WalkRefusal;
use file_run::RunError;
use pair_run::PairError;

/// Why a walk without an answer gives no text.
pub(crate) fn stop_of_walk(error: PairError) -> Stop
    ensures value { result ≡ walk_stop error }
{
    match error {
        PairError::Cap { level, wanted } => {
            Stop::Refusal(Refusal::Walk(WalkRefusal::Cap { level, wanted }))
        }
        PairError::Link => Stop::Link,
        PairError::PeerMessage { level, kind, at } => {
            Stop::Refusal(Refusal::Walk(WalkRefusal::PeerMessage { level, kind, at }))
        }
        PairError::Views {
            level,
            kind,
            place,
            left,
            right,
        } => Stop::Refusal(Refusal::Walk(WalkRefusal::Views {
            level,
            kind,
            place,
            left,
            right,
        })),
        PairError::Memory => Stop::Memory,
    }
}

/// Why a run without texts gives none.
pub(crate) fn stop_of_run(error: RunError) -> Stop
    ensures value { result ≡ run_stop error }
{
    match error {
        RunError::File { side, error } => stop_of_file(error, side),
        RunError::Widths { zero, one } => Stop::Refusal(Refusal::Widths { zero, one }),
        RunError::Walk(error) => stop_of_walk(error),
        RunError::Memory => Stop::Memory,
    }
}
