//! The intake of one side: the shares uploaded to it, each with the number of who uploaded it and the reply.
//! Its log is legal at every moment: each reply is the one that `core_definitions` gives after the entries before it.
#![tactic(auto)]

mod entries;
mod firsts;
mod intakes;

pub use crate::entries::Entry;
pub use crate::intakes::IntakeState;
pub use core_definitions::Reply;
