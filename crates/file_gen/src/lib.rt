//! Both share files of the strings of a file, from the names to the files.
//! The strings are read whole; then the pairs are made and written one after another.
#![tactic(auto)]

mod errors;
mod making;
mod strings;

pub use crate::errors::GenError;
pub use crate::making::make_files;
pub use crate::strings::strings_of;
