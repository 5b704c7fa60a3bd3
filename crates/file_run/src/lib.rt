//! A run over two share files: both are read and collected, their reports are walked over the link, and the answer is spelled.
//! Its parts are those of `share_lists`, `report_collection`, `pair_run` and `answer_text`.
#![tactic(auto)]

mod both_files;
mod errors;
mod rules;
mod running;
mod side_file;
mod texts;

pub use crate::errors::RunError;
pub use crate::rules::RunRules;
pub use crate::running::run_files;
pub use crate::texts::RunTexts;
