//! A turn: a pass while its holder has the lock's value in hand.
//! It can't be dropped, so the value's place is filled again before its holder goes on.
ghost use Rattle.std.specs.Prelude.{◌≡◌, ℕ, List, [], ◌∷◌, length, None};
ghost use Rattle.turn_lock.specs.Seats.{inside, number_of, own_of, mine_of, HasPlan};
ghost use Rattle.turn_lock.specs.Seen.{PassSeen, TurnSeen, turn_of};

use crate::rule::LockSeat;
use crate::value::Held;
use std::marker::Model;

/// A turn at a lock, without the value that was taken. Contracts see which lock it is, the pass's
/// number and own entries, and the log of the value as it was taken.
///
/// It has to be given back.
pub struct InTurn<S: Held> {
    seat: LockSeat<S>,
    number: u32,
    ghost numbered: { number_of seat.me.0.mine ≡ number },
    ghost within: { seat.me
        ≡ (inside seat.me.0.made seat.me.0.mine seat.me.0.ticket seat.me.0.taken, (0, None) ∷ []) },
    ghost one: { 1 ≡ length seat.me.0.mine },
}

impl<S: Held> Model for InTurn<S> {
    ghost use Rattle.turn_lock.specs.Seats.{plan_of, own_of};
    ghost use Rattle.turn_lock.specs.Seen.{TurnSeen};

    ghost Value = { TurnSeen S.Plan S.Entry };

    ghost view = { λ turn. record {
      lock = record { table = turn.seat.table_id; plan = plan_of turn.seat.me.0.mine turn.one };
      number = turn.number;
      taken = turn.seat.me.0.taken;
      own = own_of turn.seat.me.0.mine;
    } };
}

impl<S: Held> InTurn<S> {
    /// The number of the pass whose turn it is, under which entries are made.
    pub fn number(&self) -> u32
        ensures { result ≡ self.now.number }
    {
        self.number
    }

    /// The seat and the number, apart.
    pub(crate) fn into_seat(self) -> (LockSeat<S>, u32)
        ensures table { (result.0.table_id ≡ self.lock.table) × (result.1 ≡ self.number) }
        ensures me { result.0.me
            ≡ (inside result.0.me.0.made result.0.me.0.mine result.0.me.0.ticket self.taken, (0, None) ∷ []) }
        ensures one { length result.0.me.0.mine ≡ 1 }
        ensures mine { HasPlan self.lock.plan result.0.me.0.mine
            × (number_of result.0.me.0.mine ≡ self.number) × (own_of result.0.me.0.mine ≡ self.own) }
    {
        let InTurn { seat, number } = self;
        (seat, number)
    }

    /// The turn that such a seat is in.
    pub(crate) fn from_seat(seat: LockSeat<S>, number: u32) -> InTurn<S>
        requires within { seat.me
            ≡ (inside seat.me.0.made seat.me.0.mine seat.me.0.ticket seat.me.0.taken, (0, None) ∷ []) }
        requires one { 1 ≡ length seat.me.0.mine }
        requires numbered { number_of seat.me.0.mine ≡ number }
        ensures { (pass : PassSeen S.Plan S.Entry) → seat.table_id ≡ pass.lock.table
            → seat.me.0.mine ≡ mine_of pass ∷ [] → result ≡ turn_of pass seat.me.0.taken }
    {
        InTurn { seat, number }
    }
}
