//! Sums over lists of elements, place by place and in all, as a plain loop of field additions gives them.
//! Neither call takes memory.
#![tactic(auto)]

mod places;
mod total;

pub use places::add_into;
pub use total::sum;
