//! The row: made with its passes, and its locks taken and given back one at a time.
ghost use Rattle.std.specs.Prelude.{◌≡◌, ℕ, ◌<◌, ◌≤◌, List, [], ◌∷◌, ◌++◌, map, length, IfOk, vec_len};
ghost use Rattle.std.specs.List.{AllByRecursion};
ghost use Rattle.turn_lock.specs.Places.{StandsAt};
ghost use Rattle.turn_lock.specs.Logs.{GrewBy};
ghost use Rattle.turn_lock.specs.Seen.{pass_after};
ghost use Rattle.lock_row.specs.Columns.{ClosedFirst, tails};
ghost use Rattle.lock_row.specs.Rows.{locks_of, turn_locks, plans_of, fresh_rows, Takes};

use crate::passes::RowPass;
use crate::row_turn::RowTurn;
use crate::rows::{add_each, empty_rows, end_column};
use std::alloc::{AllocError, Global};
use std::marker::Model;
use std::sync::Wait;
use turn_lock::{Held, Turn};

/// A row of locks, to be shared by `&`. Contracts see its locks in order, and how many passes it has.
#[derive(Drop)]
pub struct Row<S: Held> {
    turns: Vec<Turn<S>>,
    passes: u32,
}

impl<S: Held> Model for Row<S> {
    ghost use Rattle.std.specs.Prelude.{◌≡◌, ◌<◌, map};
    ghost use Rattle.std.specs.List.{AllByRecursion};
    ghost use Rattle.lock_row.specs.Rows.{RowSeen};

    ghost Value = { RowSeen S.Plan };

    ghost view = { λ row. record {
      locks = map (λ turn. turn.lock) row.turns.items;
      passes = row.passes;
    } };

    ghost invariant = { λ row. (0 < row.passes) × AllByRecursion (λ turn. turn.passes ≡ row.passes) row.turns.items };
}

impl<S: Held> Row<S> {
    /// The number of locks.
    pub fn len(&self) -> usize
        ensures { result ≡ length self.now.locks }
    {
        self.turns.len()
    }

    /// Waits until it is the pass's turn at the lock of that place, counted from 0, and hands out the
    /// lock's value, to be given back by [`Row::give`].
    ///
    /// The value has the lock's plan. Its log begins with what the pass had seen there, and its entries
    /// under the pass's number are the pass's own there, in order.
    /// Nothing is promised on when the turn comes. It takes no memory.
    pub fn take<R: Wait>(&self, rt: &R, place: usize, pass: RowPass<S>) -> (S, RowTurn<S>)
        requires this_row { locks_of pass ≡ self.now.locks }
        requires place { place < length self.now.locks }
        ensures takes { Takes S.by place pass (S.log result.0) result.1 }
        ensures plan { S.plan result.0 ≡ result.1.turn.lock.plan }
        ensures locks { turn_locks result.1 ≡ self.now.locks }
        ensures lock { StandsAt self.now.locks place result.1.turn.lock }
    {
        let mut others = pass.into_passes();
        let one = others.remove(place);
        let (value, turn) = self.turns[place].take(rt, one);
        (value, RowTurn::from_parts(turn, place, others))
    }

    /// Puts the value back and ends the turn. The value keeps the lock's plan, and its log is the
    /// taken one followed by entries of the turn's number alone.
    ///
    /// What the pass knows of the other locks is as it was before the turn.
    /// It neither waits nor takes memory.
    pub fn give(&self, value: S, turn: RowTurn<S>) -> RowPass<S>
        requires this_row { turn_locks turn ≡ self.now.locks }
        requires plan { S.plan value ≡ turn.turn.lock.plan }
        requires grown { GrewBy S.by turn.turn.number turn.turn.taken (S.log value) }
        ensures pass { result ≡ turn.before ++ pass_after turn.turn (S.log value) ∷ turn.after }
        ensures locks { locks_of result ≡ self.now.locks }
    {
        let (turn, place, mut others) = turn.into_parts();
        let one = self.turns[place].give(value, turn);
        let Ok(()) = others.insert(place, one) else {
            unreachable!()
        };
        RowPass::from_passes(others)
    }
}

impl<S: Held + Drop> Row<S> {
    /// A row of locks round these values in order, whose logs are empty, with 1 to 4096 passes.
    ///
    /// Pass k of the list, counted from 0, has the number k at each lock, and was never used there.
    /// Where memory is wanting, the values are given up.
    pub fn new(
        alloc: Global,
        values: Vec<S>,
        passes: u32,
    ) -> Result<(Row<S>, Vec<RowPass<S>>), AllocError>
        requires count { (0 < passes) × (passes ≤ 4096) }
        requires empty { AllByRecursion (λ x. S.log x ≡ []) values.items }
        ensures plans { IfOk result (λ made. plans_of made.0.locks ≡ map S.plan values.items) }
        ensures count { IfOk result (λ made. made.0.passes ≡ passes) }
        ensures passes { IfOk result (λ made. made.1.items ≡ fresh_rows made.0.locks passes) }
        ensures this_row { IfOk result (λ made. AllByRecursion (λ row. locks_of row ≡ made.0.locks) made.1.items) }
        ensures all { IfOk result (λ made. vec_len made.1 ≡ passes) }
    {
        let mut turns = Vec::with_capacity(alloc, values.len())?;
        let mut rows = empty_rows(alloc, passes, values.len())?;
        for value in values {
            let (turn, made) = Turn::new(alloc, value, passes)?;
            add_each(&mut rows, made)?;
            turns.push_reserved(turn);
        }
        Ok((Row { turns, passes }, rows))
    }

    /// Ends the first lock of the row with the first pass of each row of passes, and gives its value
    /// back. The row of the other locks is left, and the rest of each row of passes is a pass of it.
    ///
    /// It neither waits nor takes memory.
    pub fn close_first(&mut self, rows: &mut Vec<RowPass<S>>) -> S
        requires some { 0 < length self.old.locks }
        requires this_row { AllByRecursion (λ row. locks_of row ≡ self.old.locks) rows.old.items }
        requires all { vec_len rows.old ≡ self.old.passes }
        ensures closed { ClosedFirst S.plan S.log S.by self.old.locks rows.old.items result self.new.locks }
        ensures passes { self.new.passes ≡ self.old.passes }
        ensures rows { rows.new.items ≡ tails rows.old.items }
        ensures this_row { AllByRecursion (λ row. locks_of row ≡ self.new.locks) rows.new.items }
        ensures all { vec_len rows.new ≡ self.new.passes }
    {
        let turn = self.turns.remove(0);
        end_column(turn, rows)
    }
}
