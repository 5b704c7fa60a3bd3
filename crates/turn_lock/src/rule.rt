//! The rule of the lock over two words (ticket, serving) and one slot, and the kinds of step there.
//! The rule itself stands in specs/Kept.antt, and what each step tells in specs/Seats.antt.
ghost use Rattle.std.specs.Prelude.{[], ◌∷◌};
ghost use Rattle.turn_lock.specs.Seats.{resting, spent, new_pass, Draws, Watches, Leaves, counts_on, newcomer, both};
ghost use Rattle.turn_lock.specs.Kept.{Kept};

use crate::value::Held;
use crate::views::View;
use atomic_table::{Join, Play, Seat, Shared, Split, Table, TableRule};
use std::alloc::Global;
use std::snapshot::Snapshot;

/// What is told when a lock is made: the value that it begins with, and the number of its passes.
#[derive(Drop)]
pub struct Key<S> {
    pub first: Snapshot<S>,
    pub passes: u32,
}

/// The rule of a lock.
pub struct Law;

impl<S: Held> TableRule<Option<S>, View<S::Plan, S::Entry>, Key<S>> for Law {
    ghost holds = { λ key. Kept S.plan S.log S.by (S.plan key.first.value) key.passes };

    ghost first = { λ key. resting 1 (new_pass 0 (S.plan key.first.value) [] ∷ []) };
}

/// The words and the slot of a lock, as threads share them.
pub(crate) type Board<S> = Shared<
    Option<S>,
    View<<S as Held>::Plan, <S as Held>::Entry>,
    Key<S>,
    Law,
>;

/// The owner of the words and the slot.
pub(crate) type Owner<S> = Table<
    Option<S>,
    View<<S as Held>::Plan, <S as Held>::Entry>,
    Key<S>,
    Law,
    Global,
>;

/// A seat at the words and the slot.
pub(crate) type LockSeat<S> = Seat<Option<S>, View<<S as Held>::Plan, <S as Held>::Entry>>;

/// Ticket: 1 is added to the first word.
pub struct Draw;

impl<S, P, E> Play<Option<S>, View<P, E>> for Draw {
    ghost then = { λ _. Draws };
}

/// Watch: the second word is read.
pub struct Watch;

impl<S: Held> Play<Option<S>, View<S::Plan, S::Entry>> for Watch {
    ghost then = { λ _. Watches S.plan S.log S.by };
}

/// Leave: 1 is added to the second word, and the slot goes home.
pub struct Leave;

impl<S: Held> Play<Option<S>, View<S::Plan, S::Entry>> for Leave {
    ghost then = { λ _. Leaves S.log };
}

/// Split: the seat that keeps the count makes a seat for a further pass.
pub struct Deal;

impl<P, E> Split<View<P, E>> for Deal {
    ghost left = { counts_on };

    ghost right = { newcomer };
}

/// Join: a seat is handed in at the close.
pub struct Gather;

impl<P, E> Join<View<P, E>> for Gather {
    ghost both = { both };

    ghost spent = { spent };
}
