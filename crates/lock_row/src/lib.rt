//! A row of locks, each round a value of its own, with one pass for the whole row.
//! A turn is taken at one lock of the row; what the pass knows of the other locks stays as it is.
#![tactic(auto)]

mod laws;
mod passes;
mod row;
mod row_turn;
mod rows;

pub use laws::{a_take_and_a_give_are_one_turn, closing_in_order_closes_each_place};
pub use passes::RowPass;
pub use row::Row;
pub use row_turn::RowTurn;
