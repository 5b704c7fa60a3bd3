//! Hostile bytes: messages and share files that are changed in one place, by the top call, in a crate of its own above `poplar_top`.
//! What is then to come follows from the rules of the messages, and from the one-thread walk over the shares that can be read.
#![tactic(auto)]

#[cfg(test)]
mod tests;
