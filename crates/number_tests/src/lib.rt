//! Tests of the field, of seeds and their expansion, of prefixes and of sums in lanes.
#![tactic(auto)]

#[cfg(test)]
mod tests;
