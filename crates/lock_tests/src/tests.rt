//! Tests of the turn lock, of a row of locks and of claims, with threads.
//! By topic.

mod claims;
mod rows;
mod turns;
