//! The lock: made with its passes, taken and given back in turns, and closed with its passes.
//! A turn comes when the word of serving shows its ticket; the value then leaves its slot and returns.
ghost use Rattle.std.specs.Prelude.{◌≡◌, ℕ, ◌<◌, ◌≤◌, List, [], ◌∷◌, IfOk, vec_len};
ghost use mathlib.Core.List.{IsPrefix};
ghost use Rattle.std.specs.List.{AllByRecursion};
ghost use Rattle.turn_lock.specs.Places.{NumberedOnce};
ghost use Rattle.turn_lock.specs.Logs.{entries_of, GrewBy};
ghost use Rattle.turn_lock.specs.Seen.{LockSeen, fresh_passes, turn_of, pass_after};
ghost use Rattle.turn_lock.specs.Seats.{resting, new_pass};

use crate::ending::Ending;
use crate::in_turn::InTurn;
use crate::passes::Pass;
use crate::rule::{Board, Draw, Key, Leave, LockSeat, Owner};
use crate::steps::{deal, finish, gather, wait_for_turn};
use crate::value::Held;
use atomic_table::Table;
use std::alloc::{AllocError, Global};
use std::marker::Model;
use std::snapshot::Snapshot;
use std::sync::Wait;

/// A lock round a value of `S`, to be shared by `&`. Contracts see which lock it is, with the plan
/// of its value, and how many passes it has.
#[derive(Drop)]
pub struct Turn<S: Held> {
    table: Owner<S>,
    ghost counts: { (table.shared.table_id.words ≡ 2) × (table.shared.table_id.slots ≡ 1) },
    ghost some: { 0 < table.shared.key.passes },
}

impl<S: Held> Model for Turn<S> {
    ghost Value = { LockSeen S.Plan };

    ghost view = { λ turn. record {
      lock = record {
        table = turn.table.shared.table_id;
        plan = S.plan turn.table.shared.key.first.value;
      };
      passes = turn.table.shared.key.passes;
    } };
}

impl<S: Held> Turn<S> {
    /// Waits until it is the pass's turn, and hands out the value, to be given back by [`Turn::give`].
    ///
    /// The value has the lock's plan. Its log begins with what the pass had seen, and its entries
    /// under the pass's number are the pass's own, in order.
    /// Nothing is promised on when the turn comes. It takes no memory.
    pub fn take<R: Wait>(&self, rt: &R, pass: Pass<S>) -> (S, InTurn<S>)
        requires this_lock { pass.lock ≡ self.now.lock }
        ensures turn { result.1 ≡ turn_of pass (S.log result.0) }
        ensures plan { S.plan result.0 ≡ self.now.lock.plan }
        ensures seen { IsPrefix pass.seen (S.log result.0) }
        ensures own { pass.own ≡ entries_of S.by pass.number (S.log result.0) }
    {
        let (mut seat, number) = pass.into_seat();
        let shared = self.board();
        let ticket = shared.fetch_add::<Draw>(&mut seat, 0, 1);
        wait_for_turn(rt, shared, &mut seat, ticket);
        let Some(value) = shared.exchange(&mut seat, 0, None) else {
            unreachable!()
        };
        (value, InTurn::from_seat(seat, number))
    }

    /// Puts the value back and ends the turn. The value keeps the lock's plan, and its log is the
    /// taken one followed by entries of the turn's number alone.
    ///
    /// The pass has the turn's number and has seen the value's log; its own entries are those
    /// before followed by the new ones.
    /// It neither waits nor takes memory.
    pub fn give(&self, value: S, turn: InTurn<S>) -> Pass<S>
        requires this_lock { turn.lock ≡ self.now.lock }
        requires plan { S.plan value ≡ self.now.lock.plan }
        requires grown { GrewBy S.by turn.number turn.taken (S.log value) }
        ensures { result ≡ pass_after turn (S.log value) }
    {
        let (mut seat, number) = turn.into_seat();
        let shared = self.board();
        let empty = shared.exchange(&mut seat, 0, Some(value));
        let None = empty else { unreachable!() };
        shared.fetch_add::<Leave>(&mut seat, 1, 1);
        Pass::from_seat(seat, number)
    }

    /// Begins to end the lock pass by pass, with the first pass that is handed in; [`Ending::hand_in`]
    /// takes the others, in any order, and [`Ending::end`] gives the value back.
    /// It neither waits nor takes memory.
    pub fn end_with(self, pass: Pass<S>) -> Ending<S>
        requires this_lock { pass.lock ≡ self.lock }
        ensures { result ≡ record { lock = self.lock; passes = self.passes; handed = pass ∷ [] } }
    {
        let table = self.into_table();
        let (keeper, _) = pass.into_seat();
        Ending::from_parts(table, keeper)
    }

    /// The words and the slot.
    fn board(&self) -> &Board<S>
        ensures counts { (result.now.table_id ≡ self.now.lock.table)
            × (result.now.table_id.words ≡ 2) × (result.now.table_id.slots ≡ 1) }
        ensures key { (S.plan result.now.key.first.value ≡ self.now.lock.plan)
            × (result.now.key.passes ≡ self.now.passes) }
    {
        &self.table.shared
    }

    /// Their owner, to be ended.
    fn into_table(self) -> Owner<S>
        ensures counts { (result.shared.table_id ≡ self.lock.table)
            × (result.shared.table_id.words ≡ 2) × (result.shared.table_id.slots ≡ 1) }
        ensures key { (S.plan result.shared.key.first.value ≡ self.lock.plan)
            × (result.shared.key.passes ≡ self.passes) × (0 < self.passes) }
    {
        let Turn { table } = self;
        table
    }
}

impl<S: Held + Drop> Turn<S> {
    /// A lock round `value`, whose log is empty, with 1 to 4096 passes. Its plan is that of `value`.
    ///
    /// Pass k of the list, counted from 0, has the number k, has seen the empty log and has no own entry.
    /// Where memory is wanting, `value` is given up.
    pub fn new(alloc: Global, value: S, passes: u32) -> Result<(Turn<S>, Vec<Pass<S>>), AllocError>
        requires count { (0 < passes) × (passes ≤ 4096) }
        requires empty { S.log value ≡ [] }
        ensures plan { IfOk result (λ made. made.0.lock.plan ≡ S.plan value) }
        ensures count { IfOk result (λ made. made.0.passes ≡ passes) }
        ensures passes { IfOk result (λ made. made.1.items ≡ fresh_passes made.0.lock passes) }
    {
        let mut made = Vec::with_capacity(alloc, passes as usize)?;
        let (turn, mut keeper) = Turn::lay(alloc, value, passes)?;
        for number in 1..passes {
            made.push_reserved(deal(turn.board(), &mut keeper, number));
        }
        let Ok(()) = made.insert(0, Pass::from_seat(keeper, 0)) else {
            unreachable!()
        };
        Ok((turn, made))
    }

    /// Ends the lock with all of its passes, in any order, and gives its value back.
    ///
    /// The value has the lock's plan, and each log that a pass has seen is a beginning of its log.
    /// Every entry of the log has a pass's number, and the entries of each number are that pass's
    /// own, in order, each once.
    /// It neither waits nor takes memory.
    pub fn close(self, passes: Vec<Pass<S>>) -> S
        requires this_lock { AllByRecursion (λ pass. pass.lock ≡ self.lock) passes.items }
        requires all { vec_len passes ≡ self.passes }
        ensures plan { S.plan result ≡ self.lock.plan }
        ensures seen { AllByRecursion (λ pass. IsPrefix pass.seen (S.log result)) passes.items }
        ensures own { AllByRecursion
            (λ pass. pass.own ≡ entries_of S.by pass.number (S.log result)) passes.items }
        ensures numbers { NumberedOnce (λ pass. pass.number) passes.items }
        ensures entries { AllByRecursion (λ entry. S.by entry < vec_len passes) (S.log result) }
    {
        let table = self.into_table();
        let keeper = gather(&table.shared, passes);
        finish(table, keeper)
    }

    /// The lock, and the seat of the first pass, which keeps the count.
    fn lay(alloc: Global, value: S, passes: u32) -> Result<(Turn<S>, LockSeat<S>), AllocError>
        requires count { (0 < passes) × (passes ≤ 4096) }
        requires empty { S.log value ≡ [] }
        ensures plan { IfOk result (λ made. (made.0.lock.plan ≡ S.plan value) × (made.0.passes ≡ passes)) }
        ensures seat { IfOk result (λ made. (made.1.table_id ≡ made.0.lock.table)
            × (made.1.me ≡ (resting 1 (new_pass 0 (S.plan value) [] ∷ []), []))) }
    {
        let key = Key {
            first: Snapshot::of(&value),
            passes,
        };
        let mut slots = Vec::with_capacity(alloc, 1)?;
        slots.push_reserved(Some(value));
        let Ok((table, seat)) = Table::new(alloc, &[0, 0], slots, &key) else {
            return Err(AllocError);
        };
        Ok((Turn { table }, seat))
    }
}
