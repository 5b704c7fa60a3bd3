//! Sides, report ids and prefixes of strings: the small values that every layer above passes about.
//! Callers see a report id as its 16 bytes and a prefix as a list of bits.
#![tactic(auto)]

pub mod laws;
mod prefix;
mod report_id;

pub use crate::prefix::Prefix;
pub use crate::report_id::ReportId;
pub use definitions::Side;

/// The most bits of a prefix: a multiple of 64. Nothing else here says how many they are.
pub const MOST_BITS: u16 = 256;
