//! Tests of one side's intake, alone and shared by threads, and of the batch of both sides.
#![tactic(auto)]

#[cfg(test)]
mod tests;
