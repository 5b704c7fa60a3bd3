//! Work that many do at once, each at a seat of its own.
//! A trait stands in the place of a closure, so that seats and what they share may borrow.
#![tactic(auto)]

mod site;

pub use crate::site::{Site, serve_all};
