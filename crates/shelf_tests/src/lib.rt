//! Tests of shelves, sinks and links in memory, of the forms that only tests use, and of gates.
#![tactic(auto)]

#[cfg(test)]
mod tests;
