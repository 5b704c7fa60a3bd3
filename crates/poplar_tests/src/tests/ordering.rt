//! Two causes at once: of each two neighbours in the order of causes, the earlier one's status stands.
//! The later cause is a call that would fail if it were made, or a sink that takes nothing.

use super::running::filled;
use super::{Expected, shelf_of, words_of};
use poplar_top::poplar;
use shelf_io::{Call, MemoryLink, MemoryShelf, MemorySink, OpenGate};
use std::alloc::{AllocError, Global};
use std::sync::Wait;
use std::thread::Threads;

// A kind of call and the number of the one that fails, counted from 1; 0 for none.
type Failing = (Call, u64);

const FIRM: Failing = (Call::Read, 0);

// Words, the call of the shelf that fails, that of the link, that of out, and what the program gives.
type Case = (
    &'static [&'static str],
    Failing,
    Failing,
    u64,
    Expected<'static>,
);

const USAGE: Expected<'static> = (2, "", "usage: poplar eval, gen, run, find, make, upgrade\n");

const SHELF: Expected<'static> = (6, "", "shelf fault\n");

const LINK: Expected<'static> = (7, "", "link fault\n");

const CAPPED: Expected<'static> = (5, "", "frontier cap: level 8 wants 6\n");

// The files that the cases name.
const NAMES: [&str; 10] = [
    "f0",
    "f1",
    "head0",
    "head1",
    "wide_head1",
    "cut1",
    "wide0",
    "wide1",
    "strings",
    "cut0",
];

// The reads of a file whose records lie in one piece are two: that of its header, and that of the piece, where it has records.

// The words of `eval`: the words before the file, the file and its first record, the prefix and the records.
const OF_EVAL: [Case; 6] = [
    (&["eval", "0", "2", "f0"], (Call::Length, 1), FIRM, 1, USAGE),
    (
        &["eval", "0", "1", "nothere"],
        (Call::Read, 1),
        FIRM,
        1,
        (3, "", "share file 0: not there\n"),
    ),
    (
        &["eval", "1", "1", "f0"],
        (Call::Read, 2),
        FIRM,
        1,
        (3, "", "share file 1: header wrong at byte 5\n"),
    ),
    (
        &["eval", "1", "1", "cut1"],
        (Call::Read, 2),
        FIRM,
        1,
        (3, "", "share file 1: cut at byte 2248\n"),
    ),
    (
        &["eval", "0", "00000000000000000", "f0"],
        (Call::Read, 2),
        FIRM,
        1,
        (4, "", "prefix of 17 bits is longer than width 2\n"),
    ),
    (&["eval", "0", "1", "f0"], (Call::Read, 2), FIRM, 1, SHELF),
];

// `run`: the words, file 0 whole before file 1, the widths, the messages of a level before its cap, and the sinks.
const OF_RUN: [Case; 11] = [
    (
        &["run", "--threshold", "0", "f0", "f1"],
        (Call::Length, 1),
        FIRM,
        1,
        USAGE,
    ),
    (
        &["run", "--threshold", "2", "nothere", "f1"],
        (Call::Length, 2),
        FIRM,
        1,
        (3, "", "share file 0: not there\n"),
    ),
    (
        &["run", "--threshold", "2", "cut0", "f1"],
        (Call::Length, 2),
        FIRM,
        1,
        (3, "", "share file 0: cut at byte 2248\n"),
    ),
    (
        &["run", "--threshold", "2", "f0", "nothere"],
        (Call::Read, 2),
        FIRM,
        1,
        SHELF,
    ),
    (
        &["run", "--threshold", "2", "f0", "cut1"],
        (Call::Read, 4),
        FIRM,
        1,
        (3, "", "share file 1: cut at byte 2248\n"),
    ),
    (
        &["run", "--threshold", "2", "head0", "f1"],
        (Call::Read, 3),
        FIRM,
        1,
        SHELF,
    ),
    (
        &["run", "--threshold", "2", "head0", "wide_head1"],
        FIRM,
        (Call::Send, 1),
        1,
        (4, "", "widths differ: 1 and 2\n"),
    ),
    (
        &["run", "--threshold", "1", "--cap", "4", "wide0", "wide1"],
        FIRM,
        (Call::Send, 48),
        1,
        LINK,
    ),
    (
        &["run", "--threshold", "1", "--cap", "4", "wide0", "wide1"],
        FIRM,
        (Call::Send, 49),
        1,
        CAPPED,
    ),
    (
        &["run", "--threshold", "2", "f0", "f1"],
        FIRM,
        (Call::Send, 96),
        1,
        LINK,
    ),
    (
        &["run", "--threshold", "2", "f0", "f1"],
        FIRM,
        (Call::Send, 97),
        1,
        (10, "", "sink fault\n"),
    ),
];

// `gen`: the words, the strings, and the output files.
const OF_GEN: [Case; 3] = [
    (
        &["gen", "--width", "0", "strings", "g0", "g1"],
        (Call::Length, 1),
        FIRM,
        0,
        USAGE,
    ),
    (
        &[
            "gen",
            "--width",
            "1",
            "--master",
            super::MASTER,
            "nothere",
            "g0",
            "g1",
        ],
        (Call::Begin, 1),
        FIRM,
        0,
        (11, "", "strings: not there\n"),
    ),
    (
        &[
            "gen",
            "--width",
            "1",
            "--master",
            super::MASTER,
            "f0",
            "g0",
            "g1",
        ],
        (Call::Begin, 1),
        FIRM,
        0,
        (11, "", "strings: line 0 is too long\n"),
    ),
];

// The list of one call that is to fail.
fn plan(alloc: Global, failing: Failing) -> Result<Vec<Failing>, AllocError> {
    let mut fail = Vec::new(alloc);
    fail.push(failing)?;
    Ok(fail)
}

// A shelf with the files of these names, of which one call fails.
fn failing(alloc: Global, files: &MemoryShelf, call: Failing) -> Result<MemoryShelf, AllocError> {
    let mut shelf = shelf_of(alloc, call.0, call.1)?;
    for name in NAMES {
        if let Some(bytes) = files.file(name) {
            shelf = shelf.with(name, bytes)?;
        }
    }
    Ok(shelf)
}

// Whether the program ends so over the shelf, a link and an out each of whose calls may fail.
fn ends<R: Threads + Wait + Sync>(
    rt: &R,
    alloc: Global,
    files: &MemoryShelf,
    case: Case,
) -> Result<bool, AllocError> {
    let (list, of_shelf, of_link, of_out, expected) = case;
    let mut shelf = failing(alloc, files, of_shelf)?;
    let mut link = MemoryLink::new(alloc, plan(alloc, of_link)?);
    let mut out = MemorySink::new(alloc, plan(alloc, (Call::Write, of_out))?);
    let mut err = MemorySink::new(alloc, plan(alloc, (Call::Write, 0))?);
    let words = words_of(alloc, list)?;
    let ended = poplar(
        rt, alloc, &words, &mut shelf, &mut out, &mut err, &mut link, &OpenGate,
    );
    let (status, text, lines) = expected;
    Ok(ended == status && out.bytes() == text.as_bytes() && err.bytes() == lines.as_bytes())
}

#[test]
fn the_earlier_cause_stands(rt: HostRuntime) -> Result<(), AllocError> {
    let files = filled(rt.alloc())?;
    for case in OF_EVAL.iter().chain(&OF_RUN).chain(&OF_GEN) {
        assert!(rt; ends(&rt, rt.alloc(), &files, *case)?, "at {:?}", case.0);
    }
    Ok(())
}
