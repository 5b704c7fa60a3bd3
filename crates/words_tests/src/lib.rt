//! Tests of the words of the command line, in a crate of their own above `command_words`.
//! The expected values are those of the table of commands: ranges, defaults, and what is refused.
#![tactic(auto)]

#[cfg(test)]
mod tests;
