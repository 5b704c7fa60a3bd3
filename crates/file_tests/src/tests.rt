//! Tests of the texts that commands read and write: lines, share files, lists of shares and answers.
//! By topic.

mod answers;
mod files;
mod lines;
mod lists;
mod records;
