//! The frequent strings of a list of strings, in one call: both sides' shares are made in memory, their reports are walked over
//! the link, and the answer is spelled. The strings are those of a file, or the workload.
#![tactic(auto)]

mod errors;
mod finding;
mod making;
mod rules;
mod telling;
mod texts;
mod walking;

pub use crate::errors::FindError;
pub use crate::finding::find_strings;
pub use crate::making::make_walk;
pub use crate::rules::FindRules;
