//! The kinds of a phase.
//! A level has one of each on each side, in this order.

/// What a phase adds up.
#[derive(Clone, Copy, Debug, PartialEq, Eq)]
pub enum Kind {
    /// The sums of the check, for each live report.
    Sketch,
    /// The values d, for each candidate.
    Totals,
}
