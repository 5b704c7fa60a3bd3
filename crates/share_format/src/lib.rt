//! The share file: a header of 8 bytes and records of one length, written and read exactly.
//! The format is the project's own; numbers have their lowest byte first, by std's `from_le_bytes` and `to_le_bytes`.
#![tactic(auto)]

mod blocks;
mod file_error;
mod gathering;
mod headers;
pub mod laws;
mod piece;
mod record_error;
mod record_reader;
mod record_reading;
mod record_writing;
mod records;

pub use crate::file_error::FileError;
pub use crate::headers::{HEADER_LEN, Header};
pub use crate::record_error::RecordError;
pub use crate::record_reader::RecordReader;
pub use crate::record_reading::read_record;
pub use crate::record_writing::{record_len, write_record};
pub use crate::records::Record;
