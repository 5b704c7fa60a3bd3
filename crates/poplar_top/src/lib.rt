//! The top call of the program: words, shelf, sinks, link and gate in, a status out.
//! Its contract says for every command which text is written and which status may stand.
#![tactic(auto)]

mod find;
pub mod laws;
mod refusal;
mod run;
mod stop;
mod telling;
mod top;
mod walk_refusal;

pub use crate::refusal::Refusal;
pub use crate::top::{eval_file, gen_files, poplar};
pub use crate::walk_refusal::WalkRefusal;
