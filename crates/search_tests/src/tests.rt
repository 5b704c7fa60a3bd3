//! Whole searches over a shelf, sinks and a link in memory: status, out and err byte for byte.
//! A row has its words with one blank between each two.

use gates::{Hold, HoldGate, TallyGate};
use poplar_top::poplar;
use prefix_bits::Side;
use shelf_io::{
    Call, FirmLink, FirmSink, Gate, Link, MemoryLink, MemoryShelf, MemorySink, OpenGate,
};
use std::alloc::{AllocError, Global};
use std::sync::Wait;
use std::thread::Threads;

// What a command is to come to: the status, out and err.
type Expected = (u8, &'static str, &'static str);

// The calls that are to fail, of each object that has such a call, by their numbers from 1; those of err never fail.
type Failing = &'static [(Call, u64)];

const USAGE: Expected = (2, "", "usage: poplar eval, gen, run, find, make, upgrade\n");

const FOUND: Expected = (0, "2\tab\n", "sealed 3 passed 3 levels 16\n");

const MADE: Expected = (0, "heavy 6 sum 504\n", "sealed 512 passed 512 levels 16\n");

const MANY: Expected = (
    0,
    "heavy 5 sum 992\n",
    "sealed 1024 passed 1024 levels 16\n",
);

const FILES: [(&str, &[u8]); 8] = [
    ("s", b"ab\nab\nac\n"),
    ("empty", b""),
    ("feeds", b"\n\n"),
    ("bytes", &[0xff, 0x0a, 0x20, 0x0a, 0x5c, 0x0a]),
    ("letters", b"a\nb\nc\n"),
    ("long", b"a\nab\n"),
    ("zero", &[0x61, 0x0a, 0, 0x0a]),
    (
        "hosts",
        b"example.com\nexample.org\nlocalhost\nexample.com\nexample.com\nexample.org\nlocalhost\nexample.com\nexample.org\nexample.com\n",
    ),
];

const ROWS: [(&str, Expected); 26] = [
    ("find --width 2 --threshold 2 s", FOUND),
    (
        "find s --threshold=1 --width=2",
        (0, "2\tab\n1\tac\n", "sealed 3 passed 3 levels 16\n"),
    ),
    (
        "find --width 1 --threshold 1 empty",
        (0, "", "sealed 0 passed 0 levels 1\n"),
    ),
    (
        "find --width 1 --threshold 2 feeds",
        (0, "2\t\n", "sealed 2 passed 2 levels 8\n"),
    ),
    (
        "find --width 1 --threshold 1 bytes",
        (
            0,
            "1\t\\x20\n1\t\\x5c\n1\t\\xff\n",
            "sealed 3 passed 3 levels 8\n",
        ),
    ),
    (
        "find --width 2 --threshold 4 s",
        (0, "", "sealed 3 passed 3 levels 1\n"),
    ),
    ("find --width 2 --threshold 2 --drill 1 s", FOUND),
    (
        "find --width 2 --threshold 2 --drill 3 --workers 8 s",
        FOUND,
    ),
    ("find --width 2 --threshold 2 --cache 1 --tag 9 s", FOUND),
    (
        "find --width 1 --threshold 1 --cap 4 letters",
        (0, "1\ta\n1\tb\n1\tc\n", "sealed 3 passed 3 levels 8\n"),
    ),
    (
        "find --width 2 --threshold 1 --cap 4 letters",
        (5, "", "frontier cap: level 8 wants 6\n"),
    ),
    (
        "find --width 16 --threshold 3 hosts",
        (
            0,
            "5\texample.com\n3\texample.org\n",
            "sealed 10 passed 10 levels 128\n",
        ),
    ),
    (
        "find --width 1 --threshold 1 long",
        (11, "", "strings: line 1 is too long\n"),
    ),
    (
        "find --width 1 --threshold 1 zero",
        (11, "", "strings: line 1 has a zero byte\n"),
    ),
    (
        "find --width 1 --threshold 1 none",
        (11, "", "strings: not there\n"),
    ),
    ("find", USAGE),
    ("run --threshold 0 f0 f1", USAGE),
    ("find --width 2 --threshold 2 --reports 2 s", USAGE),
    ("make --reports 512 --width 2 --threshold 8", MADE),
    (
        "make --reports 512 --width 2 --threshold 8 --workers 1",
        MADE,
    ),
    (
        "make --reports 512 --width 2 --threshold 8 --workers 8",
        MADE,
    ),
    (
        "make --reports 1024 --width 2 --threshold 30 --cache 1",
        MANY,
    ),
    (
        "make --reports 1024 --width 2 --threshold 30 --cache 4096",
        MANY,
    ),
    (
        "make --reports 0 --width 1 --threshold 1",
        (0, "heavy 0 sum 0\n", "sealed 0 passed 0 levels 1\n"),
    ),
    (
        "make --reports 16055 --width 32 --threshold 1",
        (11, "", "strings: 16055 lines are too many\n"),
    ),
    (
        "make --reports 512 --width 2 --threshold 8 --cap 8",
        (5, "", "frontier cap: level 8 wants 12\n"),
    ),
];

// Calls that fail, also where there is an earlier cause, or a later one.
const FAULTS: [(&str, Failing, Expected); 9] = [
    (
        "find --width 2 --threshold 2 s",
        &[(Call::Length, 1), (Call::Send, 1)],
        (6, "", "shelf fault\n"),
    ),
    (
        "find --width 2 --threshold 2 s",
        &[(Call::Read, 1)],
        (6, "", "shelf fault\n"),
    ),
    (
        "find --width 2 --threshold 2 s",
        &[(Call::Send, 3), (Call::Write, 1)],
        (7, "", "link fault\n"),
    ),
    (
        "find --width 2 --threshold 2 s",
        &[(Call::Write, 1)],
        (10, "", "sink fault\n"),
    ),
    (
        "find --width 2 --threshold 0 s",
        &[(Call::Length, 1)],
        USAGE,
    ),
    (
        "find --width 1 --threshold 1 long",
        &[(Call::Send, 1), (Call::Write, 1)],
        (11, "", "strings: line 1 is too long\n"),
    ),
    (
        "find --width 2 --threshold 1 --cap 4 letters",
        &[(Call::Write, 1)],
        (5, "", "frontier cap: level 8 wants 6\n"),
    ),
    (
        "make --reports 8 --width 1 --threshold 1",
        &[(Call::Length, 1), (Call::Receive, 1)],
        (7, "", "link fault\n"),
    ),
    (
        "make --reports 8 --width 1 --threshold 4",
        &[(Call::Length, 1), (Call::Read, 1)],
        (0, "heavy 1 sum 4\n", "sealed 8 passed 8 levels 8\n"),
    ),
];

// The messages of a walk over no reports, each sent by side 0 and then by side 1.
const EMPTY: [&[u8]; 3] = [
    &[1, 0, 1, 0, 0, 0, 0],
    &[2, 0, 1, 0, 0, 0, 0],
    &[
        3, 0, 1, 0, 0, 0, 2, 0, 0, 0, 0, 0, 0, 0, 0, 0, 0, 0, 0, 0, 0, 0, 0,
    ],
];

// The words of a row.
fn words_of(alloc: Global, row: &str) -> Result<Vec<String>, AllocError> {
    let mut words = Vec::new(alloc);
    for word in row.split(' ') {
        words.push(String::from_str(alloc, word)?)?;
    }
    Ok(words)
}

// The calls that are to fail.
fn plan(alloc: Global, failing: &[(Call, u64)]) -> Result<Vec<(Call, u64)>, AllocError> {
    let mut fail = Vec::new(alloc);
    fail.extend_from_slice(failing)?;
    Ok(fail)
}

// Whether the words of a row end so over a link and a gate, with the strings files there.
fn ends<R: Threads + Wait + Sync, L: Link, G: Gate>(
    rt: &R,
    alloc: Global,
    row: &str,
    failing: &[(Call, u64)],
    link: &mut L,
    gate: &G,
    expected: Expected,
) -> Result<bool, AllocError> {
    let mut shelf = MemoryShelf::new(alloc, plan(alloc, failing)?);
    for (name, bytes) in FILES {
        shelf = shelf.with(name, bytes)?;
    }
    let mut out = MemorySink::new(alloc, plan(alloc, failing)?);
    let mut err = FirmSink::new(alloc);
    let words = words_of(alloc, row)?;
    let ended = poplar(
        rt, alloc, &words, &mut shelf, &mut out, &mut err, link, gate,
    );
    let (status, text, lines) = expected;
    Ok(ended == status && out.bytes() == text.as_bytes() && err.bytes() == lines.as_bytes())
}

#[test]
fn searches_of_every_kind(rt: HostRuntime) -> Result<(), AllocError> {
    for (row, expected) in ROWS {
        let mut link = FirmLink::new(rt.alloc());
        assert!(rt;
            ends(&rt, rt.alloc(), row, &[], &mut link, &OpenGate, expected)?,
            "at {row}"
        );
    }
    Ok(())
}

#[test]
fn objects_that_fail(rt: HostRuntime) -> Result<(), AllocError> {
    for (row, failing, expected) in FAULTS {
        let mut link = MemoryLink::new(rt.alloc(), plan(rt.alloc(), failing)?);
        assert!(rt;
            ends(
                &rt,
                rt.alloc(),
                row,
                failing,
                &mut link,
                &OpenGate,
                expected
            )?,
            "at {row}"
        );
    }
    Ok(())
}

#[test]
fn no_strings_send_six_messages(rt: HostRuntime) -> Result<(), AllocError> {
    let mut link = FirmLink::new(rt.alloc());
    let row = "find --width 1 --threshold 1 empty";
    let expected = (0, "", "sealed 0 passed 0 levels 1\n");
    assert!(rt; ends(&rt, rt.alloc(), row, &[], &mut link, &OpenGate, expected)?);
    for (pair, bytes) in EMPTY.iter().enumerate() {
        let first = 2 * pair as u32;
        assert!(rt; link.sent(first) == Some((Side::Zero, *bytes)));
        assert!(rt; link.sent(first + 1) == Some((Side::One, *bytes)));
    }
    assert!(rt; link.sent(6).is_none());
    Ok(())
}

// What is held, a row, and whether another worker or uploader is to come while it is held.
const HELD: [(Hold, &str, bool); 3] = [
    (
        Hold::Tile,
        "make --reports 512 --width 2 --threshold 8 --workers 2",
        true,
    ),
    (
        Hold::Upload,
        "make --reports 512 --width 2 --threshold 8 --uploaders 2",
        true,
    ),
    (
        Hold::Tile,
        "make --reports 512 --width 2 --threshold 8 --drill 1",
        false,
    ),
];

#[test]
fn workers_and_uploads_overlap(rt: HostRuntime) -> Result<(), AllocError> {
    for (hold, row, comes) in HELD {
        let gate = HoldGate::new(Side::Zero, hold);
        let mut link = FirmLink::new(rt.alloc());
        assert!(rt;
            ends(&rt, rt.alloc(), row, &[], &mut link, &gate, MADE)?,
            "at {row}"
        );
        assert_eq!(rt; gate.asked(), comes, "at {row}");
        assert_eq!(rt; gate.met(), comes, "at {row}");
    }
    Ok(())
}

// Every phase is one tile of three reports by two candidates. With a cache that holds them all, each parent is found in both phases
// of both sides at each of the levels 2 to 16. With one node a shard a parent is found in the first phase alone, at the six levels
// before which the one surviving prefix ends with the bit 1, since that child was offered last.
const TALLIES: [(&str, u64); 2] = [
    ("find --width 2 --threshold 2 s", 360),
    ("find --width 2 --threshold 2 --cache 1 s", 72),
];

#[test]
fn nodes_are_made_from_found_parents(rt: HostRuntime) -> Result<(), AllocError> {
    for (row, seen) in TALLIES {
        let gate = TallyGate::new();
        let mut link = FirmLink::new(rt.alloc());
        assert!(rt;
            ends(&rt, rt.alloc(), row, &[], &mut link, &gate, FOUND)?,
            "at {row}"
        );
        assert_eq!(rt; gate.seen(), seen, "at {row}");
    }
    Ok(())
}
