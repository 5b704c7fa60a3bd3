//! Tests of share files read in pieces, by the top call over shelves that give little at a time, end too early or tell nothing.
//! The expected values are worked examples.
#![tactic(auto)]

#[cfg(test)]
mod tests;
