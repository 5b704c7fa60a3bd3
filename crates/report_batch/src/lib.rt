//! The batch of two lists of shares: the reports that both sides hold without clash, ascending by id.
//! Its meaning is the definition `batch` of `walk_definitions`.
#![tactic(auto)]

mod batch;
mod batching;
mod content;
mod contents;
pub mod laws;

pub use crate::batch::Batch;
pub use crate::batching::batch_of;
