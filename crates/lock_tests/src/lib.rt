//! Tests of the turn lock, of a row of locks and of claims, with threads.
#![tactic(auto)]

#[cfg(test)]
mod tests;
