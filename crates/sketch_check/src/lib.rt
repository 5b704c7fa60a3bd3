//! The check of a report: coins, the correlation, the sums of the sketch and the sigmas.
//! Each call is the definition of its name, and none takes memory.
#![tactic(auto)]

mod coins;
mod sums;

pub use crate::coins::CoinKey;
pub use crate::sums::{Sums, Triple, correlation, masked, open, passes, sigma};
