//! The phases of both sides at once, each made by a crew of its own: the sums that each side sends, and its totals.
//! They are those of the definitions, however the work is cut and however many work at it.
#![tactic(auto)]

mod caches;
mod hiding;
mod running;
mod totals;

pub use crate::caches::{CacheHold, Caches};
pub use crate::hiding::both_sums;
pub use crate::totals::both_totals;
