//! The values of a share file at a prefix, from the file's name to the texts in memory.
//! The records are read one after another; there are texts only where the whole file was read.
#![tactic(auto)]

mod errors;
mod lines;
mod reading;
mod texts;

pub use crate::errors::EvalError;
pub use crate::reading::eval_texts;
pub use crate::texts::EvalTexts;
