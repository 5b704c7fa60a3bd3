//! What an entry of a cache is found by: a report and a prefix.
//! Two keys are equal where both are.

use prefix_bits::Prefix;

/// A report and a prefix.
#[derive(Clone, Copy, Debug, PartialEq, Eq, Hash)]
pub struct Key {
    /// The report's place among the shares, counted from 0.
    pub report: u32,
    /// The prefix.
    pub prefix: Prefix,
}
