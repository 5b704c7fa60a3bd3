//! The words of the command line: which command they ask for, with which settings.
//! The words behind the command are read by the crate `clap`, by a command of its own for each.
#![tactic(auto)]

mod arguments;
mod commands;
mod eval_words;
mod find_words;
mod gen_words;
pub mod laws;
mod make_words;
mod reading;
mod run_words;
mod values;
mod walk_options;
mod words_error;

pub use crate::eval_words::{EvalAsked, read_eval};
pub use crate::find_words::{FindAsked, read_find};
pub use crate::gen_words::{GenAsked, read_gen};
pub use crate::make_words::{MakeAsked, read_make};
pub use crate::reading::is_command;
pub use crate::run_words::{RunAsked, read_run};
pub use crate::walk_options::WalkOptions;
pub use crate::words_error::WordsError;
