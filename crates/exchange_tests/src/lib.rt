//! Tests of frontiers, of the messages of two servers and of the one-thread walk.
#![tactic(auto)]

#[cfg(test)]
mod tests;
