//! The prefixes at which nodes are made, with their fronts.
//! A front is one bit shorter than its prefix; prefixes that follow one another may share one.

use prefix_bits::Prefix;

/// Prefixes of one length, and their fronts.
#[derive(Drop)]
pub(crate) struct Line<'t> {
    /// The prefixes' number of bits, at least 1.
    pub level: u16,
    pub prefixes: &'t [Prefix],
    pub fronts: &'t [Prefix],
    /// For each prefix, the place of its front.
    pub places: &'t [usize],
}
