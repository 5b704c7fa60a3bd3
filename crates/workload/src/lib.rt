//! The strings that `make` shares out: letters, each half as often as the one before.
//! They are the project's own, so that a run needs no file and its answer is known.
#![tactic(auto)]

mod making;

pub use crate::making::workload;
