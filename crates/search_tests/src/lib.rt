//! Tests of `find` and `make` by the top call, in a crate of their own above `poplar_top`.
//! The expected values are worked examples, and the rules on limits, causes and their order.
#![tactic(auto)]

#[cfg(test)]
mod tests;
