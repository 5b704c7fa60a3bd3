//! `run` over share files of `gen` that are whole, cut, doubled or malformed, and with words of every kind.
//! What it gives is stated by worked examples and by the rules of the format.

use super::{Expected, MASTER, runs, with_shares};
use prefix_bits::Side;
use shelf_io::{FirmLink, MemoryShelf};
use std::alloc::{AllocError, Global};

const USAGE: Expected<'static> = (2, "", "usage: poplar eval, gen, run, find, make, upgrade\n");

const FOUND: Expected<'static> = (0, "2\tab\n", "sealed 3 passed 3 levels 16\n");

// A width, the strings, and the names of both sides' files that `gen` makes of them.
const MADE: [(&str, &[u8], &str, &str); 4] = [
    ("1", b"a\n", "a0", "a1"),
    ("2", b"ab\nab\nac\n", "f0", "f1"),
    ("1", b"a\nb\nc\n", "narrow0", "narrow1"),
    ("2", b"a\nb\nc\n", "wide0", "wide1"),
];

// How a file is made of another.
#[derive(Clone, Copy)]
enum Change {
    // Its first bytes.
    Front(usize),
    // With this byte at a place.
    Byte(usize, u8),
    // With the bytes of a file from a place to another behind it.
    Followed(&'static str, usize, usize),
}

// A name, the file that it is made of, and how.
const CHANGED: [(&str, &str, Change); 8] = [
    ("head0", "a0", Change::Front(8)),
    ("head1", "a1", Change::Front(8)),
    ("wide_head1", "f1", Change::Front(8)),
    ("cut0", "f0", Change::Front(3367)),
    ("cut1", "f1", Change::Front(3367)),
    ("twice0", "a0", Change::Followed("a0", 8, 608)),
    ("twice1", "a1", Change::Followed("a1", 8, 608)),
    ("malformed0", "f0", Change::Byte(1240, 4)),
];

// A threshold, both files, what `run` gives, and how many messages it sends.
const FILES: [(&str, &str, &str, Expected<'static>, u32); 10] = [
    (
        "1",
        "a0",
        "head1",
        (0, "", "sealed 0 passed 0 levels 1\n"),
        6,
    ),
    (
        "1",
        "twice0",
        "twice1",
        (0, "1\ta\n", "sealed 1 passed 1 levels 8\n"),
        48,
    ),
    (
        "2",
        "twice0",
        "twice1",
        (0, "", "sealed 1 passed 1 levels 1\n"),
        6,
    ),
    (
        "1",
        "head0",
        "wide_head1",
        (4, "", "widths differ: 1 and 2\n"),
        0,
    ),
    (
        "1",
        "f0",
        "nothere",
        (3, "", "share file 1: not there\n"),
        0,
    ),
    (
        "1",
        "f1",
        "f0",
        (3, "", "share file 0: header wrong at byte 5\n"),
        0,
    ),
    ("2", "f0", "f1", FOUND, 96),
    (
        "1",
        "f0",
        "f1",
        (0, "2\tab\n1\tac\n", "sealed 3 passed 3 levels 16\n"),
        96,
    ),
    ("4", "f0", "f1", (0, "", "sealed 3 passed 3 levels 1\n"), 6),
    (
        "1",
        "malformed0",
        "f1",
        (
            0,
            "1\tab\n1\tac\n",
            "refused side 0 record 1\nsealed 2 passed 2 levels 16\n",
        ),
        96,
    ),
];

// Words, what they give, and how many messages are sent.
const WORDS: [(&[&str], Expected<'static>, u32); 15] = [
    (
        &["run", "--threshold", "2", "--cap", "4096", "f0", "f1"],
        FOUND,
        96,
    ),
    (
        &["run", "--threshold", "2", "--verify", MASTER, "f0", "f1"],
        FOUND,
        96,
    ),
    (
        &["run", "--threshold", "1", "--cap", "4", "wide0", "wide1"],
        (5, "", "frontier cap: level 8 wants 6\n"),
        48,
    ),
    (
        &[
            "run",
            "--threshold",
            "1",
            "--cap",
            "4",
            "narrow0",
            "narrow1",
        ],
        (0, "1\ta\n1\tb\n1\tc\n", "sealed 3 passed 3 levels 8\n"),
        48,
    ),
    (
        &[
            "run",
            "--threshold",
            "1",
            "--uploaders",
            "1",
            "twice0",
            "twice1",
        ],
        (0, "1\ta\n", "sealed 1 passed 1 levels 8\n"),
        48,
    ),
    (
        &[
            "run",
            "--threshold",
            "1",
            "--uploaders",
            "4",
            "twice0",
            "twice1",
        ],
        (0, "1\ta\n", "sealed 1 passed 1 levels 8\n"),
        48,
    ),
    (
        &["run", "--threshold", "2", "--uploaders", "64", "f0", "f1"],
        FOUND,
        96,
    ),
    (
        &["run", "--threshold", "2", "--uploaders", "0", "f0", "f1"],
        USAGE,
        0,
    ),
    (
        &["run", "--threshold", "2", "--uploaders", "65", "f0", "f1"],
        USAGE,
        0,
    ),
    (&["run", "--threshold", "0", "f0", "f1"], USAGE, 0),
    (&["run", "f0", "f1"], USAGE, 0),
    (
        &["run", "--threshold", "2", "--workers", "8", "f0", "f1"],
        FOUND,
        96,
    ),
    (
        &["run", "f0", "--drill=3", "f1", "--threshold", "2"],
        FOUND,
        96,
    ),
    (&[], USAGE, 0),
    (&["find"], USAGE, 0),
];

// The messages of a walk over no reports, each sent by side 0 and then by side 1.
const EMPTY: [&[u8]; 3] = [
    &[1, 0, 1, 0, 0, 0, 0],
    &[2, 0, 1, 0, 0, 0, 0],
    &[
        3, 0, 1, 0, 0, 0, 2, 0, 0, 0, 0, 0, 0, 0, 0, 0, 0, 0, 0, 0, 0, 0, 0,
    ],
];

// The bytes under a name, and none where it is not there.
fn bytes_of<'a>(shelf: &'a MemoryShelf, name: &str) -> &'a [u8] {
    match shelf.file(name) {
        Some(bytes) => bytes,
        None => &[],
    }
}

// A file's bytes after a change.
fn changed(
    alloc: Global,
    shelf: &MemoryShelf,
    name: &str,
    change: Change,
) -> Result<Vec<u8>, AllocError> {
    let bytes = bytes_of(shelf, name);
    let mut file = Vec::new(alloc);
    match change {
        Change::Front(length) => file.extend_from_slice(&bytes[..length.min(bytes.len())])?,
        Change::Byte(place, byte) => {
            file.extend_from_slice(bytes)?;
            if place < file.len() {
                file[place] = byte;
            }
        }
        Change::Followed(other, from, to) => {
            file.extend_from_slice(bytes)?;
            let more = bytes_of(shelf, other);
            if from <= to && to <= more.len() {
                file.extend_from_slice(&more[from..to])?;
            }
        }
    }
    Ok(file)
}

// A shelf with the made files and the changed ones.
pub(super) fn filled(alloc: Global) -> Result<MemoryShelf, AllocError> {
    let mut shelf = MemoryShelf::new(alloc, Vec::new(alloc));
    for (width, text, zero, one) in MADE {
        shelf = with_shares(alloc, shelf, width, text, zero, one)?;
    }
    for (name, source, change) in CHANGED {
        let file = changed(alloc, &shelf, source, change)?;
        shelf = shelf.with(name, &file)?;
    }
    Ok(shelf)
}

// Whether a link was sent just so many messages.
fn has_sent(link: &FirmLink, count: u32) -> bool {
    link.sent(count).is_none() && (count == 0 || link.sent(count - 1).is_some())
}

#[test]
fn share_files_of_every_kind(rt: HostRuntime) -> Result<(), AllocError> {
    let mut shelf = filled(rt.alloc())?;
    for (threshold, zero, one, expected, messages) in FILES {
        let mut link = FirmLink::new(rt.alloc());
        let words = ["run", "--threshold", threshold, zero, one];
        assert!(rt;
            runs(&rt, rt.alloc(), &mut shelf, &mut link, &words, expected)?,
            "threshold {threshold} over {zero} and {one}"
        );
        assert!(rt; has_sent(&link, messages), "messages over {zero} and {one}");
    }
    Ok(())
}

#[test]
fn words_of_every_kind(rt: HostRuntime) -> Result<(), AllocError> {
    let mut shelf = filled(rt.alloc())?;
    for (words, expected, messages) in WORDS {
        let mut link = FirmLink::new(rt.alloc());
        assert!(rt;
            runs(&rt, rt.alloc(), &mut shelf, &mut link, words, expected)?,
            "at {words:?}"
        );
        assert!(rt; has_sent(&link, messages), "messages at {words:?}");
    }
    Ok(())
}

#[test]
fn no_reports_send_six_messages(rt: HostRuntime) -> Result<(), AllocError> {
    let mut shelf = filled(rt.alloc())?;
    let mut link = FirmLink::new(rt.alloc());
    let words = ["run", "--threshold", "1", "a0", "head1"];
    let expected = (0, "", "sealed 0 passed 0 levels 1\n");
    assert!(rt; runs(&rt, rt.alloc(), &mut shelf, &mut link, &words, expected)?);
    for (pair, bytes) in EMPTY.iter().enumerate() {
        let first = 2 * pair as u32;
        assert!(rt; link.sent(first) == Some((Side::Zero, *bytes)));
        assert!(rt; link.sent(first + 1) == Some((Side::One, *bytes)));
    }
    assert!(rt; link.sent(6).is_none());
    Ok(())
}
