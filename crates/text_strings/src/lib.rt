//! Strings as text: the lines of a file as strings of a width, and a string's bytes as text that is safe to print.
//! Both rules are the project's own; a string is a prefix of whole bytes of the crate `prefix_bits`.
#![tactic(auto)]

mod cuts;
mod lines_error;
mod reading;
mod showing;

pub use crate::lines_error::LinesError;
pub use crate::reading::{MOST_WIDTH, read_lines};
pub use crate::showing::shown;
