//! Both sides' shares of a list of strings, made in memory: those that the two share files of the strings hold.
//! The pairs come from `idpf_gen`, one for each string, with the coins of its line.
#![tactic(auto)]

pub mod laws;
mod lists;

pub use crate::lists::pair_lists;
