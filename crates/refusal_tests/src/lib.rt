//! Each call of the outside refused in turn, sinks that take little at a time, and workers that leave tiles: tests of the top call,
//! in a crate of their own above `poplar_top`. The expected values are worked examples and the rules of the statuses.
#![tactic(auto)]

#[cfg(test)]
mod tests;
