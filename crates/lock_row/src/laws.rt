//! Laws of a turn at a row, and of a row that was closed lock by lock: contracts of functions with empty bodies.
//! The second lead from the rows, as they are handed in, to what is known at each place of each row.
ghost use Rattle.lock_row.specs.Laws.{IsOneTurn, OneByOne, AtEachPlace, OfEachRow};

use turn_lock::Held;

/// What [`crate::Row::take`] tells of a pass, and [`crate::Row::give`] after it, is one turn of the pass at
/// that place: it knows of the other locks what it knew before.
pub fn a_take_and_a_give_are_one_turn<S: Held>()
    ensures { IsOneTurn S.Plan S.by }
{}

/// Locks that are closed one after the other from the front are closed with what stands at their place
/// in each row; and what a row's pass at a place has seen begins the log of the value there, in which
/// its own entries are those of its number.
pub fn closing_in_order_closes_each_place<S: Held>()
    ensures order { OneByOne S.plan S.log S.by }
    ensures place { AtEachPlace S.plan S.log S.by }
    ensures rows { OfEachRow S.plan S.log S.by }
{}
