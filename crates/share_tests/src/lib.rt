//! Tests of evaluation, key generation, the sketch, the cache and made-up workloads.
#![tactic(auto)]

#[cfg(test)]
mod tests;
