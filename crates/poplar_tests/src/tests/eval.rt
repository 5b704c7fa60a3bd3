//! `eval` over files of zero bytes, cut files, malformed records and failing objects, one table of cases each.
//! The values of the zero shares are those of an independent implementation.

use super::{HEADER, evaluates, shelf_of, words_of};
use poplar_top::eval_file;
use shelf_io::{Call, FirmSink, MemoryShelf, MemorySink};
use std::alloc::{AllocError, Global};

const ZERO_ONE: &str =
    "00000000000000000000000000000000\t5645781439922100137\t3250058476778643772\n";

const ONE_ONE: &str =
    "00000000000000000000000000000000\t12800962629492484184\t15196685592635940549\n";

const USAGE: &str = "usage: poplar eval, gen, run, find, make, upgrade\n";

const REFUSED: &str = "refused side 0 record 0\n";

// Words, and the status, out and err that they are to give.
type Case = (&'static [&'static str], u8, &'static str, &'static str);

const CASES: [Case; 15] = [
    (&["eval", "0", "1", "f0"], 0, ZERO_ONE, ""),
    (&["eval", "1", "1", "f1"], 0, ONE_ONE, ""),
    (
        &["eval", "1", "1", "f0"],
        3,
        "",
        "share file 1: header wrong at byte 5\n",
    ),
    (
        &["eval", "1", "1", "f2"],
        3,
        "",
        "share file 1: not there\n",
    ),
    (
        &["eval", "0", "1", "cut"],
        3,
        "",
        "share file 0: cut at byte 8\n",
    ),
    (&["eval", "0", "1", "head"], 0, "", ""),
    (
        &["eval", "0", "000000000", "head"],
        4,
        "",
        "prefix of 9 bits is longer than width 1\n",
    ),
    (&["eval", "0", "1", "bits"], 0, ZERO_ONE, REFUSED),
    (&["eval", "0", "1", "modulus"], 0, ZERO_ONE, REFUSED),
    (&[], 2, "", USAGE),
    (&["run", "0", "1", "f0"], 2, "", USAGE),
    (&["eval", "2", "1", "f0"], 2, "", USAGE),
    (&["eval", "0", "12", "f0"], 2, "", USAGE),
    (&["eval", "0", "", "f0"], 2, "", USAGE),
    (&["eval", "0", "1", "-f0"], 2, "", USAGE),
];

// A name, a side, the bytes behind the header, and a place in them with the eight bytes that stand there.
const FILES: [(&str, u8, usize, usize, [u8; 8]); 7] = [
    ("f0", 0, 600, 5000, [0; 8]),
    ("f1", 1, 600, 5000, [0; 8]),
    ("cut", 0, 599, 5000, [0; 8]),
    ("head", 0, 0, 5000, [0; 8]),
    ("bits", 0, 1200, 112, [4, 0, 0, 0, 0, 0, 0, 0]),
    (
        "modulus",
        0,
        1200,
        113,
        [1, 0, 0, 0, 0xff, 0xff, 0xff, 0xff],
    ),
    ("last", 0, 1200, 113, [0, 0, 0, 0, 0xff, 0xff, 0xff, 0xff]),
];

// A shelf with these files, of which the call of a kind with this number fails.
fn filled(alloc: Global, call: Call, number: u64) -> Result<MemoryShelf, AllocError> {
    let mut shelf = shelf_of(alloc, call, number)?;
    for (name, side, rest, place, bytes) in FILES {
        let mut file = vec![in alloc; 0_u8; rest.min(1200)]?;
        if place < file.len() && file.len() - place >= 8 {
            file[place..place + 8].copy_from_slice(&bytes);
        }
        let mut whole = Vec::new(alloc);
        whole.extend_from_slice(&HEADER)?;
        if whole.len() == 8 {
            whole[5] = side;
        }
        whole.extend_from_slice(&file)?;
        shelf = shelf.with(name, &whole)?;
    }
    Ok(shelf)
}

#[test]
fn files_and_words_of_every_kind(rt: HostRuntime) -> Result<(), AllocError> {
    let mut shelf = filled(rt.alloc(), Call::Read, 0)?;
    for (words, status, text, lines) in CASES {
        assert!(rt; evaluates(rt.alloc(), &mut shelf, words, status, text, lines)?);
    }
    Ok(())
}

#[test]
fn the_greatest_element_is_read(rt: HostRuntime) -> Result<(), AllocError> {
    let mut shelf = filled(rt.alloc(), Call::Read, 0)?;
    let mut out = FirmSink::new(rt.alloc());
    let mut err = FirmSink::new(rt.alloc());
    let words = words_of(rt.alloc(), &["eval", "0", "1", "last"])?;
    assert_eq!(rt;
        eval_file(rt.alloc(), &words, &mut shelf, &mut out, &mut err),
        0
    );
    assert!(rt; err.bytes().is_empty());
    assert!(rt; out.bytes().ends_with(ZERO_ONE.as_bytes()));
    Ok(())
}

#[test]
fn shelves_that_fail(rt: HostRuntime) -> Result<(), AllocError> {
    for (call, number) in [(Call::Length, 1), (Call::Read, 1), (Call::Read, 2)] {
        let mut shelf = filled(rt.alloc(), call, number)?;
        let words = ["eval", "0", "1", "f0"];
        assert!(rt; evaluates(rt.alloc(), &mut shelf, &words, 6, "", "shelf fault\n")?);
    }
    Ok(())
}

#[test]
fn an_out_that_fails(rt: HostRuntime) -> Result<(), AllocError> {
    let mut shelf = filled(rt.alloc(), Call::Read, 0)?;
    let mut fail = Vec::new(rt.alloc());
    fail.push((Call::Write, 1))?;
    let mut out = MemorySink::new(rt.alloc(), fail);
    let mut err = FirmSink::new(rt.alloc());
    let words = words_of(rt.alloc(), &["eval", "0", "1", "f0"])?;
    assert_eq!(rt;
        eval_file(rt.alloc(), &words, &mut shelf, &mut out, &mut err),
        10
    );
    assert!(rt; out.bytes().is_empty());
    assert!(rt; err.bytes() == "sink fault\n".as_bytes());
    Ok(())
}
