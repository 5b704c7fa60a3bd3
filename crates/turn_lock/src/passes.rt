//! A pass: the right to take turns at a lock, one at a time, with what is known of the lock's log.
//! It owns the seat of its one own list; the seat of pass 0 keeps the count of all passes too.
ghost use Rattle.std.specs.Prelude.{◌≡◌, ℕ, List, [], ◌∷◌, length};
ghost use Rattle.turn_lock.specs.Seats.{resting, number_of, mine_of};
ghost use Rattle.turn_lock.specs.Seen.{PassSeen};

use crate::rule::LockSeat;
use crate::value::Held;
use std::marker::Model;

/// A pass of a lock, outside the lock. Contracts see which lock made it, its number, the log that
/// it has seen last, and its own entries in order.
#[derive(Drop)]
pub struct Pass<S: Held> {
    seat: LockSeat<S>,
    number: u32,
    ghost numbered: { number_of seat.me.0.mine ≡ number },
    ghost out: { seat.me ≡ (resting seat.me.0.made seat.me.0.mine, []) },
    ghost one: { 1 ≡ length seat.me.0.mine },
}

impl<S: Held> Model for Pass<S> {
    ghost use Rattle.turn_lock.specs.Seats.{plan_of, seen_of, own_of};
    ghost use Rattle.turn_lock.specs.Seen.{PassSeen};

    ghost Value = { PassSeen S.Plan S.Entry };

    ghost view = { λ pass. record {
      lock = record { table = pass.seat.table_id; plan = plan_of pass.seat.me.0.mine pass.one };
      number = pass.number;
      seen = seen_of pass.seat.me.0.mine;
      own = own_of pass.seat.me.0.mine;
    } };
}

impl<S: Held> Pass<S> {
    /// The number of the pass: 0 for the lock's first pass, 1 for the second, and so on.
    pub fn number(&self) -> u32
        ensures { result ≡ self.now.number }
    {
        self.number
    }

    /// The seat and the number, apart.
    pub(crate) fn into_seat(self) -> (LockSeat<S>, u32)
        ensures table { (result.0.table_id ≡ self.lock.table) × (result.1 ≡ self.number) }
        ensures me { result.0.me ≡ (resting result.0.me.0.made (mine_of self ∷ []), []) }
    {
        let Pass { seat, number } = self;
        (seat, number)
    }

    /// The pass that such a seat is.
    pub(crate) fn from_seat(seat: LockSeat<S>, number: u32) -> Pass<S>
        requires out { seat.me ≡ (resting seat.me.0.made seat.me.0.mine, []) }
        requires one { 1 ≡ length seat.me.0.mine }
        requires numbered { number_of seat.me.0.mine ≡ number }
        ensures { (pass : PassSeen S.Plan S.Entry) → seat.table_id ≡ pass.lock.table
            → seat.me.0.mine ≡ mine_of pass ∷ [] → result ≡ pass }
    {
        Pass { seat, number }
    }
}
