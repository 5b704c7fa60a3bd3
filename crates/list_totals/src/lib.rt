//! Totals over lists: what a change at one place, a second place and a whole size say of them.
//! What keeps its count in a list of views, as a lock and the claims do, rests on these.
#![tactic(auto)]

pub mod laws;
