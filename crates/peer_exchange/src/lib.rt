//! The messages of the two sides over any link: three sends and three takes. A message has a kind, a level, the number of
//! elements and the elements; numbers are spelled by `byteorder`.
#![tactic(auto)]

mod exchange_error;
mod header;
mod kind;
pub mod laws;
mod misread;
mod reading;
mod receiving;
mod sends;
mod spelling;
mod takes;
mod triples;

pub use crate::exchange_error::ExchangeError;
pub use crate::sends::{send_sigmas, send_sums, send_totals};
pub use crate::takes::{take_sigmas, take_sums, take_totals};
