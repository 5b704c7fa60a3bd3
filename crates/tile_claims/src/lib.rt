//! A plan that cuts reports by candidates into numbered tiles, and the numbers of these tiles handed out to many threads.
//! Each number is drawn once, by one atomic add on one word: no thread waits for another.
#![tactic(auto)]

mod claim;
mod drawers;
mod rule;
mod tile_plan;
mod tiles;
mod views;

pub use claim::Claims;
pub use drawers::Drawer;
pub use rule::rule_of_claims;
pub use tile_plan::TilePlan;
pub use tiles::Tile;
