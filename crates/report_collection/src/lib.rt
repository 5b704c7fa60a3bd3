//! The collection of both sides' shares by uploaders at once: each side has an intake, and each uploader a pass of it.
//! Shares are dealt to the uploaders before they begin, so that no room is wanted between them but the intake's own.
#![tactic(auto)]

mod collect;
mod dealing;
pub mod laws;
mod side_collection;
mod uploader;

pub use crate::collect::Collect;
