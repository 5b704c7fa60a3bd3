//! Tests of the top calls, in a crate of their own above `poplar_top`, so that an edit there does not prove them again.
//! The expected values are worked examples, the rules of the formats, and values of an independent implementation.
#![tactic(auto)]

#[cfg(test)]
mod tests;
