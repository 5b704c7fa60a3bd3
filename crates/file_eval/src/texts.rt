//! The texts of a share file's values at a prefix.
//! Out has the values; err has the malformed records.

/// The texts of the values.
#[derive(Debug, Drop)]
pub struct EvalTexts {
    /// For out: a line for each share, in the order of the file.
    pub out: Vec<u8>,
    /// For err: a line for each malformed record, ascending.
    pub err: Vec<u8>,
}
