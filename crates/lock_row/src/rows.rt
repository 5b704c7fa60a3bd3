//! The passes of a row while they are made and handed in: a list of rows, one pass of each lock in each row.
ghost use Rattle.std.specs.Prelude.{◌≡◌, ◌<◌, ◌≤◌, List, [], ◌∷◌, length, take, IfOk, OnOk, vec_len};
ghost use Rattle.lock_row.specs.Rows.{fresh_rows, locks_of};
ghost use Rattle.lock_row.specs.Columns.{each_more, heads, tails, IsClosed};
ghost use Rattle.std.specs.List.{AllByRecursion};

use crate::passes::RowPass;
use std::alloc::{AllocError, Global};
use turn_lock::{Held, Pass, Turn};

/// So many passes of a row that has no lock yet.
pub(crate) fn empty_rows<S: Held + Drop>(
    alloc: Global,
    passes: u32,
    locks: usize,
) -> Result<Vec<RowPass<S>>, AllocError>
    ensures { IfOk result (λ rows. rows.items ≡ fresh_rows [] passes) }
{
    let mut rows = Vec::with_capacity(alloc, passes as usize)?;
    for _ in 0..passes {
        rows.push_reserved(RowPass::with_room(alloc, locks)?);
    }
    Ok(rows)
}

/// Adds the passes of a further lock, one to each row.
pub(crate) fn add_each<S: Held + Drop>(
    rows: &mut Vec<RowPass<S>>,
    made: Vec<Pass<S>>,
) -> Result<(), AllocError>
    requires { vec_len made ≤ vec_len rows.old }
    ensures { OnOk result (rows.new.items ≡ each_more made.items rows.old.items) }
{
    for (number, pass) in made.into_iter().enumerate() {
        rows[number].push(pass)?;
    }
    Ok(())
}

/// Ends a lock with the first pass of each row, and leaves the rest of each row.
pub(crate) fn end_column<S: Held + Drop>(turn: Turn<S>, rows: &mut Vec<RowPass<S>>) -> S
    requires some { 0 < vec_len rows.old }
    requires this_lock { AllByRecursion (λ row. take 1 (locks_of row) ≡ turn.lock ∷ []) rows.old.items }
    requires all { vec_len rows.old ≡ turn.passes }
    ensures closed { IsClosed S.plan S.log S.by turn.lock.plan (heads rows.old.items) result }
    ensures rows { rows.new.items ≡ tails rows.old.items }
{
    let mut number = rows.len() - 1;
    let mut ending = turn.end_with(rows[number].take_first());
    while number > 0 {
        number -= 1;
        ending = ending.hand_in(rows[number].take_first());
    }
    ending.end()
}
