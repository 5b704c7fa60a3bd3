//! Key generation: a client's coins from a master seed, and the two shares of a string.
//! The values of a pair add up to a point function of the string, and the pair passes the check.
#![tactic(auto)]

mod coins;
mod pairs;
mod path;

pub use crate::coins::{ClientCoins, LevelCoins, coins_of};
pub use crate::pairs::{gen_, joined, pair_of, side_words};
pub use crate::path::{Path, kept_seeds, value_level};
