//! Tests of the texts that commands read and write: lines, share files, lists of shares and answers.
#![tactic(auto)]

#[cfg(test)]
mod tests;
