//! Tests of one side's intake, alone and shared by threads, and of the batch of both sides.
//! By topic.

mod batches;
mod collecting;
mod states;
