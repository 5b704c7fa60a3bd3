//! The end of a lock pass by pass, in place of a list of all its passes.
//! It begins at [`crate::Turn::end_with`], and takes no memory.
ghost use Rattle.std.specs.Prelude.{◌≡◌, ℕ, ◌<◌, List, [], ◌∷◌, length};
ghost use mathlib.Core.List.{IsPrefix};
ghost use Rattle.std.specs.List.{AllByRecursion};
ghost use Rattle.turn_lock.specs.Places.{NumberedOnce};
ghost use Rattle.turn_lock.specs.Logs.{entries_of};
ghost use Rattle.turn_lock.specs.Seats.{resting};
ghost use Rattle.turn_lock.specs.Ends.{handed_more, passes_of};

use crate::passes::Pass;
use crate::rule::{LockSeat, Owner};
use crate::steps::{finish, take_in};
use crate::value::Held;
use std::marker::Model;

/// A lock that is being ended, with the passes that were handed in so far. Contracts see which lock
/// it is, how many passes it has, and those that were handed in, the last one first.
#[derive(Drop)]
pub struct Ending<S: Held> {
    table: Owner<S>,
    keeper: LockSeat<S>,
    ghost counts: { (table.shared.table_id.words ≡ 2) × (table.shared.table_id.slots ≡ 1) },
    ghost ours: { keeper.table_id ≡ table.shared.table_id },
    ghost out: { keeper.me ≡ (resting keeper.me.0.made keeper.me.0.mine, []) },
}

impl<S: Held> Model for Ending<S> {
    ghost use Rattle.turn_lock.specs.Ends.{EndingSeen, passes_of};

    ghost Value = { EndingSeen S.Plan S.Entry };

    ghost view = { λ ending. record {
      lock = record {
        table = ending.table.shared.table_id;
        plan = S.plan ending.table.shared.key.first.value;
      };
      passes = ending.table.shared.key.passes;
      handed = passes_of ending.table.shared.table_id ending.keeper.me.0.mine;
    } };
}

impl<S: Held> Ending<S> {
    /// Hands one more pass in. It neither waits nor takes memory.
    pub fn hand_in(self, pass: Pass<S>) -> Ending<S>
        requires this_lock { pass.lock ≡ self.lock }
        ensures { result ≡ handed_more pass self }
    {
        let Ending { table, mut keeper } = self;
        take_in(&table.shared, &mut keeper, pass);
        Ending { table, keeper }
    }

    /// Ends the lock, all of whose passes were handed in, and gives its value back.
    ///
    /// The value has the lock's plan, and each log that a pass has seen is a beginning of its log.
    /// Every entry of the log has a pass's number, and the entries of each number are that pass's
    /// own, in order, each once.
    /// It neither waits nor takes memory.
    pub fn end(self) -> S
        requires all { length self.handed ≡ self.passes }
        ensures plan { S.plan result ≡ self.lock.plan }
        ensures seen { AllByRecursion (λ pass. IsPrefix pass.seen (S.log result)) self.handed }
        ensures own { AllByRecursion (λ pass. pass.own ≡ entries_of S.by pass.number (S.log result)) self.handed }
        ensures numbers { NumberedOnce (λ pass. pass.number) self.handed }
        ensures entries { AllByRecursion (λ entry. S.by entry < length self.handed) (S.log result) }
    {
        let Ending { table, keeper } = self;
        finish(table, keeper)
    }

    /// The end of a table, with the seat of the first pass that is handed in.
    pub(crate) fn from_parts(table: Owner<S>, keeper: LockSeat<S>) -> Ending<S>
        requires counts { (table.shared.table_id.words ≡ 2) × (table.shared.table_id.slots ≡ 1) }
        requires ours { keeper.table_id ≡ table.shared.table_id }
        requires out { keeper.me ≡ (resting keeper.me.0.made keeper.me.0.mine, []) }
        ensures { result ≡ record {
          lock = record { table = table.shared.table_id; plan = S.plan table.shared.key.first.value };
          passes = table.shared.key.passes;
          handed = passes_of table.shared.table_id keeper.me.0.mine;
        } }
    {
        Ending { table, keeper }
    }
}
