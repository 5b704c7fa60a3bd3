//! What no clause says: that the calls succeed, and that threads come to their turns at each lock.
//! The visits that are expected follow from who takes turns where.
ghost use Rattle.std.specs.Prelude.{◌≡◌, ◌<◌, ◌^◌, [], ◌∷◌, length, IfOk};
ghost use Rattle.lock_row.specs.Rows.{locks_of};

use lock_row::{Row, RowPass};
use std::alloc::{AllocError, Global};
use std::sync::Wait;
use std::test::Fail;
use std::thread::{Threads, join};
use turn_lock::Held;

/// One turn of a pass: the pass's number, and how many turns it had before.
#[derive(Clone, Copy, Drop)]
struct Visit {
    by: u32,
    step: u32,
}

/// The visits to one of the locks, which has that number.
#[derive(Drop)]
struct Book {
    lock: u32,
    visits: Vec<Visit>,
}

impl Held for Book {
    type Plan = u32;

    type Entry = Visit;

    ghost plan = { λ book. book.lock };

    ghost log = { λ book. book.visits.items };

    ghost by = { λ visit. visit.by };
}

// Takes the book of the lock at that place, enters a visit where there is room, and gives it back.
fn pay_visit<R: Wait>(
    rt: &R,
    row: &Row<Book>,
    pass: RowPass<Book>,
    place: usize,
    step: u32,
) -> RowPass<Book>
    requires this_row { locks_of pass ≡ row.now.locks }
    requires place { place < length row.now.locks }
    ensures { locks_of result ≡ row.now.locks }
{
    let (mut book, turn) = row.take(rt, place, pass);
    if book.visits.len() < book.visits.capacity() {
        let by = turn.number();
        book.visits.push_reserved(Visit { by, step });
    }
    row.give(book, turn)
}

// Visits the locks one after another, and the first again after the last.
fn visit_often<R: Wait>(
    rt: &R,
    row: &Row<Book>,
    mut pass: RowPass<Book>,
    times: u32,
) -> RowPass<Book>
    requires some { 0 < length row.now.locks }
    requires this_row { locks_of pass ≡ row.now.locks }
    ensures { locks_of result ≡ row.now.locks }
{
    for step in 0..times {
        pass = pay_visit(rt, row, pass, step as usize % row.len(), step);
    }
    pass
}

fn both<R: Threads + Wait + Sync>(
    rt: &R,
    row: &Row<Book>,
    one: RowPass<Book>,
    two: RowPass<Book>,
    times: u32,
) -> (RowPass<Book>, RowPass<Book>)
    requires some { 0 < length row.now.locks }
    requires one { locks_of one ≡ row.now.locks }
    requires two { locks_of two ≡ row.now.locks }
    ensures one { locks_of result.0 ≡ row.now.locks }
    ensures two { locks_of result.1 ≡ row.now.locks }
{
    join(
        rt,
        || visit_often(rt, row, one, times),
        || visit_often(rt, row, two, times),
    )
}

// The book of that lock, with room for so many visits.
fn new_book(alloc: Global, lock: u32, visits: usize) -> Result<Book, AllocError>
    requires { visits < 2 ^ 20 }
    ensures { IfOk result (λ book. book.visits.items ≡ []) }
{
    Ok(Book {
        lock,
        visits: Vec::with_capacity(alloc, visits)?,
    })
}

// A row of two locks, the visits of two threads to both at the same time, and the end.
fn meet<R: Threads + Wait + Sync>(
    rt: &R,
    alloc: Global,
    times: u32,
) -> Result<(Book, Book), AllocError>
    requires { times < 2 ^ 19 }
{
    let mut books = Vec::with_capacity(alloc, 2)?;
    books.push_reserved(new_book(alloc, 0, 2 * times as usize)?);
    books.push_reserved(new_book(alloc, 1, 2 * times as usize)?);
    let (mut row, mut passes) = Row::new(alloc, books, 2)?;
    let Some(two) = passes.pop() else {
        unreachable!()
    };
    let Some(one) = passes.pop() else {
        unreachable!()
    };
    let (one, two) = both(rt, &row, one, two, times);
    passes.push_reserved(one);
    passes.push_reserved(two);
    let first = row.close_first(&mut passes);
    let second = row.close_first(&mut passes);
    Ok((first, second))
}

#[test]
fn two_threads_at_two_locks(rt: HostRuntime) -> Result<(), Fail> {
    let (first, second) = meet(&rt, rt.alloc(), 600)?;
    for (lock, book) in [(0, &first), (1, &second)] {
        assert!(rt; book.lock == lock);
        assert!(rt; book.visits.len() == 600);
        for by in 0..2 {
            let steps = book.visits.iter().filter(|visit| visit.by == by);
            assert!(rt;
                steps
                    .map(|visit| visit.step)
                    .eq((0..300).map(|turn| 2 * turn + lock))
            );
        }
    }
    Ok(())
}
