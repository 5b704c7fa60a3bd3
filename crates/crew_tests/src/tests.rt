//! What no clause says of levels and crews: that posts, threads and gates run, and what plain loops add up to.
//! By topic: posts to a level, crews, and a crew over the batch of a run.

mod batch;
mod crews;
mod levels;
