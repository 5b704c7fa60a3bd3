//! The pairs of a list of strings, made level by level over many lines at once, with their seeds side by side.
//! They are the pairs that `idpf_gen` makes of the strings one by one, with the coins of their lines.
#![tactic(auto)]

mod blocks;
mod growing_pair;
mod level;
mod level_buffers;
mod line_seed;
mod lists;
mod turn;

pub use crate::lists::{LINES, pair_lists_of};
