//! Whole commands over shelves and sinks in memory, by worked examples and values of an independent implementation.
//! Each compares status, out and err byte for byte.

mod eval;
mod generating;
mod ordering;
mod pairs;
mod running;

use poplar_top::{eval_file, gen_files, poplar};
use shelf_io::{Call, FirmSink, Link, MemoryShelf, OpenGate, Shelf};
use std::alloc::{AllocError, Global};
use std::sync::Wait;
use std::thread::Threads;

// The header of a share file of width 1.
const HEADER: [u8; 8] = [0x50, 0x50, 0x4c, 0x52, 1, 0, 1, 0];

// The digits of the master seed whose bytes are 0, 1, .. 31.
const MASTER: &str = "000102030405060708090a0b0c0d0e0f101112131415161718191a1b1c1d1e1f";

// Words with memory of their own.
fn words_of(alloc: Global, list: &[&str]) -> Result<Vec<String>, AllocError> {
    let mut words = Vec::new(alloc);
    for word in list {
        words.push(String::from_str(alloc, word)?)?;
    }
    Ok(words)
}

// A shelf of which the call of a kind with this number, counted from 1, fails; 0 for none.
fn shelf_of(alloc: Global, call: Call, number: u64) -> Result<MemoryShelf, AllocError> {
    let mut fail = Vec::new(alloc);
    fail.push((call, number))?;
    Ok(MemoryShelf::new(alloc, fail))
}

// Whether `eval` of these words ends so.
fn evaluates<H: Shelf>(
    alloc: Global,
    shelf: &mut H,
    list: &[&str],
    status: u8,
    text: &str,
    lines: &str,
) -> Result<bool, AllocError> {
    let mut out = FirmSink::new(alloc);
    let mut err = FirmSink::new(alloc);
    let words = words_of(alloc, list)?;
    let ended = eval_file(alloc, &words, shelf, &mut out, &mut err);
    Ok(ended == status && out.bytes() == text.as_bytes() && err.bytes() == lines.as_bytes())
}

// Whether `gen` of these words ends so.
fn generates<H: Shelf>(
    alloc: Global,
    shelf: &mut H,
    list: &[&str],
    status: u8,
    lines: &str,
) -> Result<bool, AllocError> {
    let mut err = FirmSink::new(alloc);
    let words = words_of(alloc, list)?;
    let ended = gen_files(alloc, &words, shelf, &mut err);
    Ok(ended == status && err.bytes() == lines.as_bytes())
}

// What a command is to come to: the status, out and err.
type Expected<'a> = (u8, &'a str, &'a str);

// Whether the program ends so with these words over a shelf and a link.
fn runs<R: Threads + Wait + Sync, H: Shelf, L: Link>(
    rt: &R,
    alloc: Global,
    shelf: &mut H,
    link: &mut L,
    list: &[&str],
    expected: Expected<'_>,
) -> Result<bool, AllocError> {
    let mut out = FirmSink::new(alloc);
    let mut err = FirmSink::new(alloc);
    let words = words_of(alloc, list)?;
    let ended = poplar(
        rt, alloc, &words, shelf, &mut out, &mut err, link, &OpenGate,
    );
    let (status, text, lines) = expected;
    Ok(ended == status && out.bytes() == text.as_bytes() && err.bytes() == lines.as_bytes())
}

// A shelf on which `gen` made both share files of a text of strings.
fn with_shares(
    alloc: Global,
    shelf: MemoryShelf,
    width: &str,
    text: &[u8],
    zero: &str,
    one: &str,
) -> Result<MemoryShelf, AllocError> {
    let mut shelf = shelf.with("strings", text)?;
    let words = [
        "gen", "--width", width, "--master", MASTER, "strings", zero, one,
    ];
    generates(alloc, &mut shelf, &words, 0, "")?;
    Ok(shelf)
}
