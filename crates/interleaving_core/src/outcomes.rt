//! How a walk ended, where no message failed.

use frontier_walk::Heavy;

/// The end of a walk.
#[derive(Debug, Drop)]
pub enum Outcome {
    /// The answer: the heavy strings in order with their totals, or none where no candidate of a level survived.
    Done(Vec<Heavy>),
    /// The next level would have more candidates than the cap.
    Capped {
        /// The level, counted from 1.
        level: u16,
        /// The number of candidates that the next level would have.
        wanted: u32,
    },
}
