//! What no clause says: that the calls succeed, and that threads come to their turns.
//! The logs that are expected follow from who takes turns, and how often.
ghost use Rattle.std.specs.Prelude.{◌≡◌, ℕ, ◌<◌, ◌^◌, List, [], length, IfOk};
ghost use Rattle.std.specs.List.{AllByRecursion};
ghost use mathlib.Core.List.{IsPrefix};

use std::alloc::{AllocError, Global};
use std::sync::Wait;
use std::test::Fail;
use std::thread::{Threads, join};
use turn_lock::{Held, Pass, Turn};

/// One turn of a pass: the pass's number, and how many turns it had before.
#[derive(Clone, Copy, Drop)]
struct Visit {
    by: u32,
    step: u32,
}

/// A slice, and the visits to it so far.
#[derive(Drop)]
struct Book<'a> {
    words: &'a [u32],
    visits: Vec<Visit>,
}

impl<'a> Held for Book<'a> {
    type Plan = u64;

    type Entry = Visit;

    ghost plan = { λ book. length book.words.now };

    ghost log = { λ book. book.visits.items };

    ghost by = { λ visit. visit.by };
}

// Takes the book, enters a visit where there is room, and gives it back.
fn pay_visit<'a, R: Wait>(
    rt: &R,
    turn: &Turn<Book<'a>>,
    pass: Pass<Book<'a>>,
    step: u32,
) -> Pass<Book<'a>>
    requires { pass.lock ≡ turn.now.lock }
    ensures lock { result.lock ≡ turn.now.lock }
    ensures number { result.number ≡ pass.entry.number }
    ensures seen { IsPrefix pass.entry.seen result.seen }
{
    let (mut book, held) = turn.take(rt, pass);
    if book.visits.len() < book.visits.capacity() {
        let by = held.number();
        book.visits.push_reserved(Visit { by, step });
    }
    turn.give(book, held)
}

/// A lock, with the pass that takes turns there: one value, so that a closure has one lifetime for both.
#[derive(Drop)]
struct Job<'t, 'a> {
    turn: &'t Turn<Book<'a>>,
    pass: Pass<Book<'a>>,
    ghost fits: { pass.lock ≡ turn.now.lock },
}

fn visit_often<'t, 'a, R: Wait>(rt: &R, job: Job<'t, 'a>, times: u32) -> Job<'t, 'a>
    ensures { result.turn.now ≡ job.entry.turn.now }
{
    let Job { turn, mut pass } = job;
    for step in 0..times {
        pass = pay_visit(rt, turn, pass, step);
    }
    Job { turn, pass }
}

fn both_jobs<'t, 'a, R: Threads + Wait + Sync>(
    rt: &R,
    one: Job<'t, 'a>,
    two: Job<'t, 'a>,
    times: u32,
) -> (Job<'t, 'a>, Job<'t, 'a>)
    ensures one { result.0.turn.now ≡ one.entry.turn.now }
    ensures two { result.1.turn.now ≡ two.entry.turn.now }
{
    join(
        rt,
        || visit_often(rt, one, times),
        || visit_often(rt, two, times),
    )
}

fn both<'a, R: Threads + Wait + Sync>(
    rt: &R,
    turn: &Turn<Book<'a>>,
    one: Pass<Book<'a>>,
    two: Pass<Book<'a>>,
    times: u32,
) -> (Pass<Book<'a>>, Pass<Book<'a>>)
    requires one { one.lock ≡ turn.now.lock }
    requires two { two.lock ≡ turn.now.lock }
    ensures one { result.0.lock ≡ turn.now.lock }
    ensures two { result.1.lock ≡ turn.now.lock }
{
    let one = Job { turn, pass: one };
    let two = Job { turn, pass: two };
    let (one, two) = both_jobs(rt, one, two, times);
    (one.pass, two.pass)
}

// A lock for two with room for their visits, the visits of both at the same time, and the end.
fn meet<'a, R: Threads + Wait + Sync>(
    rt: &R,
    alloc: Global,
    words: &'a [u32],
    times: u32,
) -> Result<Book<'a>, AllocError>
    requires { times < 2 ^ 20 }
    ensures { IfOk result (λ book. (length book.words.now ≡ length words.now)
        × AllByRecursion (λ visit. visit.by < 2) book.visits.items) }
{
    let visits = Vec::with_capacity(alloc, 2 * times as usize)?;
    let (turn, mut passes) = Turn::new(alloc, Book { words, visits }, 2)?;
    let Some(two) = passes.pop() else {
        unreachable!()
    };
    let Some(one) = passes.pop() else {
        unreachable!()
    };
    let (one, two) = both(rt, &turn, one, two, times);
    passes.push_reserved(two);
    passes.push_reserved(one);
    Ok(turn.close(passes))
}

// The same on one thread, the first pass before the second, and the end pass by pass.
fn in_turn<'a, R: Wait>(rt: &R, alloc: Global, words: &'a [u32]) -> Result<Book<'a>, AllocError> {
    let visits = Vec::with_capacity(alloc, 2)?;
    let (turn, mut passes) = Turn::new(alloc, Book { words, visits }, 2)?;
    let Some(second) = passes.pop() else {
        unreachable!()
    };
    let Some(first) = passes.pop() else {
        unreachable!()
    };
    let first = pay_visit(rt, &turn, first, 0);
    let second = pay_visit(rt, &turn, second, 0);
    Ok(turn.end_with(first).hand_in(second).end())
}

// The visits under a number are the steps from 0 on, so many, in order.
fn has_steps(visits: &[Visit], by: u32, times: u32) -> bool {
    visits
        .iter()
        .filter(|visit| visit.by == by)
        .map(|visit| visit.step)
        .eq(0..times)
}

#[test]
fn two_passes_in_turn(rt: HostRuntime) -> Result<(), Fail> {
    let words = [5, 6];
    let book = in_turn(&rt, rt.alloc(), &words)?;
    assert!(rt; book.words.len() == 2);
    assert!(rt; book.visits.len() == 2);
    assert!(rt; book.visits[0].by == 0 && book.visits[0].step == 0);
    assert!(rt; book.visits[1].by == 1 && book.visits[1].step == 0);
    Ok(())
}

#[test]
fn two_threads_with_a_thousand_turns_each(rt: HostRuntime) -> Result<(), Fail> {
    let words = [7, 8, 9];
    let book = meet(&rt, rt.alloc(), &words, 1000)?;
    assert!(rt; book.words.len() == 3);
    assert!(rt; book.visits.len() == 2000);
    assert!(rt; has_steps(&book.visits, 0, 1000));
    assert!(rt; has_steps(&book.visits, 1, 1000));
    Ok(())
}

/// A place in a borrowed slice. It keeps no log.
#[derive(Drop)]
struct Place<'a> {
    words: &'a [u32],
    at: usize,
}

impl<'a> Held for Place<'a> {
    type Plan = u64;

    type Entry = u32;

    ghost plan = { λ place. length place.words.now };

    ghost log = { λ _. [] };

    ghost by = { λ _. 0 };
}

// Goes on by one word, where there is one.
fn go_on<'a, R: Wait>(rt: &R, turn: &Turn<Place<'a>>, pass: Pass<Place<'a>>) -> Pass<Place<'a>>
    requires { pass.lock ≡ turn.now.lock }
    ensures { result.lock ≡ turn.now.lock }
{
    let (mut place, held) = turn.take(rt, pass);
    if place.at < place.words.len() {
        place.at += 1;
    }
    turn.give(place, held)
}

#[test]
fn a_value_that_borrows_from_the_stack(rt: HostRuntime) -> Result<(), Fail> {
    let words = [4, 2];
    let place = Place {
        words: &words,
        at: 0,
    };
    let (turn, mut passes) = Turn::new(rt.alloc(), place, 1)?;
    if let Some(pass) = passes.pop() {
        assert!(rt; pass.number() == 0);
        let pass = go_on(&rt, &turn, pass);
        passes.push_reserved(go_on(&rt, &turn, pass));
    }
    let place = turn.close(passes);
    assert!(rt; place.at == 2 && place.words[1] == 2);
    Ok(())
}
