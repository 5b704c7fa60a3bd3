//! One byte or one element of one message changed on its way.
//! A level has two messages of each of three kinds: hidden sums, sigmas, totals. A heading has 7 bytes, an element 8.

use super::{Ended, Expected, filled, number_at, run_words};
use definitions::plain_field::{MODULUS, add, sub};
use outside_forms::{Twist, TwistLink};
use shelf_io::MemoryShelf;
use std::alloc::{AllocError, Global};
use std::sync::Wait;
use std::thread::Threads;

// The level and the kind of a message, whose numbers begin at 1.
fn level_and_kind(message: u32) -> (u32, u32) {
    (message / 6 + 1, message % 6 / 2 + 1)
}

// The program over a link with a twist.
fn twisted<R: Threads + Wait + Sync>(
    rt: &R,
    alloc: Global,
    shelf: &mut MemoryShelf,
    message: u32,
    twist: Twist,
    row: &str,
) -> Result<Ended, AllocError> {
    let mut link = TwistLink::new(alloc, message, twist);
    run_words(rt, alloc, shelf, &mut link, row)
}

// ---- the first byte

#[test]
fn a_first_byte_at_fault_is_told(rt: HostRuntime) -> Result<(), AllocError> {
    let mut shelf = filled(&rt, rt.alloc())?;
    let twist = Twist::Byte { at: 0, value: 9 };
    let row = "find --width 2 --threshold 2 s";
    for message in 0..96 {
        let (level, kind) = level_and_kind(message);
        let line = format!(in rt.alloc(); "peer message: level {level} kind {kind} at byte 0\n")?;
        let ended = twisted(&rt, rt.alloc(), &mut shelf, message, twist, row)?;
        assert!(rt; ended.is((9, "", &line)), "message {message}");
    }
    Ok(())
}

// ---- an element

// A threshold, a message, which of its elements is raised by 1, and what comes of it.
const RAISED: [(u32, u32, u32, Expected<'static>); 9] = [
    (
        1,
        0,
        0,
        (0, "1\tab\n1\tac\n", "sealed 3 passed 2 levels 16\n"),
    ),
    (
        1,
        1,
        0,
        (0, "1\tab\n1\tac\n", "sealed 3 passed 2 levels 16\n"),
    ),
    (
        1,
        1,
        1,
        (0, "2\tab\n1\tac\n", "sealed 3 passed 3 levels 16\n"),
    ),
    (2, 0, 8, (0, "2\tab\n", "sealed 3 passed 2 levels 16\n")),
    (
        2,
        2,
        0,
        (9, "", "views differ: level 1 kind 2 place 0: 0 and 1\n"),
    ),
    (
        2,
        3,
        2,
        (9, "", "views differ: level 1 kind 2 place 2: 1 and 0\n"),
    ),
    (
        2,
        4,
        0,
        (9, "", "views differ: level 1 kind 3 place 0: 3 and 4\n"),
    ),
    (
        2,
        5,
        1,
        (9, "", "views differ: level 1 kind 3 place 1: 1 and 0\n"),
    ),
    (
        2,
        95,
        0,
        (9, "", "views differ: level 16 kind 3 place 0: 3 and 2\n"),
    ),
];

#[test]
fn an_element_that_is_raised(rt: HostRuntime) -> Result<(), AllocError> {
    let mut shelf = filled(&rt, rt.alloc())?;
    for (threshold, message, element, expected) in RAISED {
        let row = format!(in rt.alloc(); "find --width 2 --threshold {threshold} s")?;
        let twist = Twist::Raise { element };
        let ended = twisted(&rt, rt.alloc(), &mut shelf, message, twist, &row)?;
        assert!(rt;
            ended.is(expected),
            "element {element} of message {message}"
        );
    }
    Ok(())
}

// ---- each byte

// The totals of the two candidates of the first two levels: all strings begin with the bits 0 and 1.
const TOTALS: [[u64; 2]; 2] = [[3, 0], [0, 3]];

const RUN: &str = "run --threshold 2 --workers 1 --uploaders 1 f0 f1";

// What is to come: the status, out, and err.
type Coming = (u8, &'static str, String);

// The message is refused at a byte.
fn refused(alloc: Global, message: u32, at: usize) -> Result<Coming, AllocError> {
    let (level, kind) = level_and_kind(message);
    let line = format!(in alloc; "peer message: level {level} kind {kind} at byte {at}\n")?;
    Ok((9, "", line))
}

// The two sides have different sums at a place: the side that took the message has another one.
fn differs(
    alloc: Global,
    message: u32,
    place: usize,
    sum: u64,
    other: u64,
) -> Result<Coming, AllocError> {
    let (level, kind) = level_and_kind(message);
    let (left, right) = if message % 2 == 0 {
        (sum, other)
    } else {
        (other, sum)
    };
    let line = format!(in alloc;
        "views differ: level {level} kind {kind} place {place}: {left} and {right}\n"
    )?;
    Ok((9, "", line))
}

// The answer of all three reports, or of those but one: `ab` is frequent where both of its reports are live.
fn answers(alloc: Global, left_out: Option<usize>) -> Result<Coming, AllocError> {
    let (passed, out) = match left_out {
        None => (3, "2\tab\n"),
        Some(2) => (2, "2\tab\n"),
        Some(_) => (2, ""),
    };
    let line = format!(in alloc; "sealed 3 passed {passed} levels 16\n")?;
    Ok((0, out, line))
}

// What is to come where an element of a message becomes another one. A side's sigma depends on the first of three sums that it
// took, and at side 1 on all three.
fn of_element(
    alloc: Global,
    message: u32,
    element: usize,
    before: u64,
    after: u64,
) -> Result<Coming, AllocError> {
    let (level, kind) = level_and_kind(message);
    let moved = sub(after, before);
    match kind {
        1 if message % 2 == 1 && element % 3 != 0 => answers(alloc, None),
        1 => answers(alloc, Some(element / 3)),
        2 => differs(alloc, message, element, 0, moved),
        _ => {
            let total = if level == 1 { TOTALS[0] } else { TOTALS[1] }[element % 2];
            differs(alloc, message, element, total, add(total, moved))
        }
    }
}

// What is to come where the byte at a place of a message becomes its value plus one.
fn coming(alloc: Global, message: u32, bytes: &[u8], at: usize) -> Result<Coming, AllocError> {
    if at < 7 {
        return refused(alloc, message, at);
    }
    let element = (at - 7) / 8;
    let start = 7 + 8 * element;
    let mut changed = Vec::new(alloc);
    changed.extend_from_slice(bytes)?;
    if at < changed.len() {
        changed[at] = changed[at].wrapping_add(1);
    }
    match (number_at(bytes, start), number_at(&changed, start)) {
        (Some(before), Some(after)) if after < MODULUS => {
            of_element(alloc, message, element, before, after)
        }
        _ => refused(alloc, message, start),
    }
}

// Changes each byte of a message in turn: the place of the first one that does not end as it is to, or how many there are.
fn first_other<R: Threads + Wait + Sync>(
    rt: &R,
    alloc: Global,
    shelf: &mut MemoryShelf,
    message: u32,
    bytes: &[u8],
) -> Result<usize, AllocError> {
    for at in 0..1000 {
        let Some(byte) = bytes.get(at) else {
            return Ok(at);
        };
        let twist = Twist::Byte {
            at: at as u32,
            value: byte.wrapping_add(1),
        };
        let ended = twisted(rt, alloc, shelf, message, twist, RUN)?;
        let (status, out, err) = coming(alloc, message, bytes, at)?;
        if !ended.is((status, out, &err)) {
            return Ok(at);
        }
    }
    Ok(1000)
}

// The bytes of each of the six messages of a level: three sums of three reports, three sigmas, two totals.
const LENGTHS: [usize; 6] = [79, 79, 31, 31, 23, 23];

#[test]
fn each_byte_of_the_first_messages(rt: HostRuntime) -> Result<(), AllocError> {
    let mut shelf = filled(&rt, rt.alloc())?;
    let mut link = TwistLink::new(rt.alloc(), 1000, Twist::Raise { element: 0 });
    run_words(&rt, rt.alloc(), &mut shelf, &mut link, RUN)?;
    for message in 0..12 {
        let bytes = match link.sent(message) {
            Some((_side, bytes)) => bytes,
            None => &[],
        };
        let length = LENGTHS[message as usize % 6];
        assert_eq!(rt; bytes.len(), length);
        assert_eq!(rt;
            first_other(&rt, rt.alloc(), &mut shelf, message, bytes)?,
            length,
            "message {message}"
        );
    }
    Ok(())
}
