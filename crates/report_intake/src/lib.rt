//! The intake of one side, to which many threads upload at once: the state of the side's reports behind a lock.
//! Each upload is one turn at the lock, so all of them stand in one history, which each pass knows a beginning of.
#![tactic(auto)]

mod held;
mod intake;
pub mod laws;
mod passes;
mod sealing;
#[cfg(test)]
mod tests;

pub use crate::held::HeldIntake;
pub use crate::intake::Intake;
pub use crate::passes::UploadPass;
pub use crate::sealing::seal;
pub use core_definitions::Reply;
