//! Shares of a point function, and their evaluation at a prefix.
//! A side's node at a prefix is the recursion over the prefix's bits that `definitions` states.
#![tactic(auto)]

mod evaluation;
mod nodes;
mod shares;

pub use crate::evaluation::{eval, eval_uncounted, root, step};
pub use crate::nodes::Node;
pub use crate::shares::{LevelWord, Share, same_share};
