//! The definitions that the contracts of every layer cite (specs/), with their laws, and slow plain functions that
//! compute them. They are the project's own account of the field, the stream's words, shares, key generation and check.
#![tactic(auto)]

pub mod laws;
pub mod plain_field;
pub mod plain_nodes;
pub mod plain_words;
mod sequence;

pub use crate::sequence::Sequence;

/// One of the two servers.
#[derive(Clone, Copy, Debug, PartialEq, Eq)]
pub enum Side {
    /// Server 0, whose bit at the root is 0.
    Zero,
    /// Server 1, whose bit at the root is 1 and which adds negatives.
    One,
}
