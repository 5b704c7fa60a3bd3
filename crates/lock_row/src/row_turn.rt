//! A turn at one lock of a row, with the passes of the other locks beside it.
ghost use Rattle.std.specs.Prelude.{◌≡◌, ◌<◌, ◌≤◌, ◌++◌, ◌∷◌, take, drop, length, vec_len, vec_capacity};

use crate::passes::RowPass;
use std::marker::Model;
use turn_lock::{Held, InTurn, Pass};

/// A turn at one lock of a row, without the value that was taken. Contracts see the turn at the lock
/// and the passes of the locks before and after it.
///
/// It has to be given back.
pub struct RowTurn<S: Held> {
    turn: InTurn<S>,
    place: usize,
    others: Vec<Pass<S>>,
    ghost within: { place ≤ vec_len others },
    ghost room: { vec_len others < vec_capacity others },
}

impl<S: Held> Model for RowTurn<S> {
    ghost use Rattle.std.specs.Prelude.{take, drop};
    ghost use Rattle.lock_row.specs.Rows.{RowTurnSeen};

    ghost Value = { RowTurnSeen S.Plan S.Entry };

    ghost view = { λ t. record {
      before = take t.place t.others.items;
      turn = t.turn;
      after = drop t.place t.others.items;
    } };
}

impl<S: Held> RowTurn<S> {
    /// The number of the pass whose turn it is, under which entries are made.
    pub fn number(&self) -> u32
        ensures { result ≡ self.now.turn.number }
    {
        self.turn.number()
    }

    /// The turn, the place and the others, apart.
    pub(crate) fn into_parts(self) -> (InTurn<S>, usize, Vec<Pass<S>>)
        ensures turn { result.0 ≡ self.turn }
        ensures before { take result.1 result.2.items ≡ self.before }
        ensures after { drop result.1 result.2.items ≡ self.after }
        ensures within { result.1 ≤ vec_len result.2 }
        ensures room { vec_len result.2 < vec_capacity result.2 }
    {
        let RowTurn {
            turn,
            place,
            others,
        } = self;
        (turn, place, others)
    }

    /// The turn of these parts.
    pub(crate) fn from_parts(turn: InTurn<S>, place: usize, others: Vec<Pass<S>>) -> RowTurn<S>
        requires within { place ≤ vec_len others }
        requires room { vec_len others < vec_capacity others }
        ensures turn { result.turn ≡ turn }
        ensures before { result.before ≡ take place others.items }
        ensures after { result.after ≡ drop place others.items }
    {
        RowTurn {
            turn,
            place,
            others,
        }
    }
}
