//! What the definitions of the walk give, in words that do not compute it: which strings are heavy, which reports a
//! batch has, and where a walk ends. Each law is the contract of a function that does nothing.
#![tactic(auto)]

pub mod laws;
