//! What a reader gives next.
//! A record that spells no share is told by its number, so that reading can go on.

use idpf_eval::Share;

/// What a reader gives next.
#[derive(Debug, Drop)]
pub enum Record {
    /// The share of a well-formed record.
    Share(Share),
    /// The number of a record, counted from 0, that is the spelling of no share.
    Malformed(u32),
    /// There are no more records.
    End,
}
