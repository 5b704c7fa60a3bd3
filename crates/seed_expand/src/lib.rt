//! Seeds and the words of ChaCha20 that they give, by `rand_chacha`, with a counter of expansions.
//! A key is the seed; `extend` reads stream 0 and `convert` stream 1, each with one generator.
#![tactic(auto)]

mod draws;
mod expansion;
mod seeds;
mod steps;
mod stream_reader;

pub use crate::expansion::{convert, extend, number_at, part, xor};
pub use crate::seeds::{Children, Converted, Seed};
pub use crate::steps::Steps;
pub use crate::stream_reader::StreamReader;
