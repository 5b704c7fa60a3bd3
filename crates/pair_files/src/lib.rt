//! The two share files of a list of strings, written pair after pair.
//! The pairs come from `idpf_gen`, the records from `share_format`; the order of the calls is the project's own.
#![tactic(auto)]

mod pair_settings;
mod records;
mod writing;

pub use crate::pair_settings::PairSettings;
pub use crate::writing::write_pairs;
