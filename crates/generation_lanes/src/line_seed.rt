//! The seeds of a line's pair that are expanded, converted or read.

/// Which of a line's seeds.
#[derive(Clone, Copy, Debug, PartialEq, Eq)]
pub(crate) enum LineSeed {
    /// Side 0's on the string's path.
    Zero,
    /// Side 1's on the string's path.
    One,
    /// The report's, which the coins of the levels are read from.
    Coins,
    /// That of side 0's part of the correlation.
    CorrZero,
    /// That of side 1's part of the correlation.
    CorrOne,
}
