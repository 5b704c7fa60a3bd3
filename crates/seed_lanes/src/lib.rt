//! The expansion and the conversion of many seeds side by side, and numbers of their streams: eight in the lanes of vectors, a few
//! left over one by one.
//! Each result is that of `seed_expand` for its seed. No call takes memory, and none counts its expansions.
#![tactic(auto)]

mod conversions;
mod expansions;
mod groups;
mod numbers;
mod rounds;
mod words;

pub use crate::conversions::convert_many;
pub use crate::expansions::extend_many;
pub use crate::numbers::{Numbers, numbers_many};
