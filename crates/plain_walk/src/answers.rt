//! What a walk answers.
//! A walk that is refused answers with the error of `frontier_walk` instead.

use frontier_walk::Heavy;

/// The answer of a walk that was not capped.
#[derive(Debug, Drop)]
pub struct Answer {
    /// The number of reports of the batch.
    pub sealed: u32,
    /// The number of reports that passed every level that was walked.
    pub passed: u32,
    /// The number of levels that were walked.
    pub levels: u16,
    /// The heavy strings in order with their totals; none where the walk ended before the last level.
    pub heavy: Vec<Heavy>,
}
