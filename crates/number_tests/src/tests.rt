//! Tests of the field, of seeds and their expansion, of prefixes and of sums in lanes.
//! By topic.

mod elements;
mod prefixes;
mod seeds;
mod sums;
