//! A side's share file as lists: its shares, one list of them behind another, and the numbers of its malformed records.
//! The format and its reader are those of `share_format`; the shares are handed on to the walk.
#![tactic(auto)]

mod reading;
mod share_part;

pub use crate::reading::next_list;
pub use crate::share_part::SharePart;
