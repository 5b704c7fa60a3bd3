//! The lines that commands print: heavy strings with their counts, how a walk ended, and malformed records.
//! Their spelling is the project's own and stands in specs/.
#![tactic(auto)]

mod answers;
mod lines;
mod refused;

pub use crate::answers::answer_text;
pub use crate::lines::sealed_line;
pub use crate::refused::{refused_line, refused_text};
