//! Tests of seeds side by side and of the nodes of many prefixes, beside the calls for one seed and for one prefix.
#![tactic(auto)]

#[cfg(test)]
mod tests;
