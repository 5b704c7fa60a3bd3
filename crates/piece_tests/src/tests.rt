//! Whole commands over shelves that cut their reads in other ways than a piece is long.
//! Records of width 1 have 600 bytes, so that reads of 600 and 1200 end exactly where a record does.

mod stated;

use outside_forms::{BitingShelf, HollowShelf};
use poplar_top::{eval_file, gen_files, poplar};
use shelf_io::{FirmLink, FirmSink, MemoryShelf, OpenGate, Shelf};
use std::alloc::{AllocError, Global};
use std::sync::Wait;
use std::thread::Threads;

// The header of a share file of side 0 at width 1.
const HEADER: [u8; 8] = [0x50, 0x50, 0x4c, 0x52, 1, 0, 1, 0];

const GEN: [&str; 8] = [
    "gen",
    "--width",
    "1",
    "--master",
    "000102030405060708090a0b0c0d0e0f101112131415161718191a1b1c1d1e1f",
    "s",
    "f0",
    "f1",
];

const RUN: [&str; 5] = ["run", "--threshold", "120", "f0", "f1"];

const EVAL: [&str; 4] = ["eval", "0", "1", "f0"];

// Words with memory of their own.
fn words_of(alloc: Global, list: &[&str]) -> Result<Vec<String>, AllocError> {
    let mut words = Vec::new(alloc);
    for word in list {
        words.push(String::from_str(alloc, word)?)?;
    }
    Ok(words)
}

// A shelf with 120 lines `a` under the name "s" that gives at most so many bytes a read, 1 at least.
fn lines(alloc: Global, most: usize) -> Result<BitingShelf, AllocError> {
    let mut text = Vec::new(alloc);
    for _ in 0..120 {
        text.extend_from_slice(b"a\n")?;
    }
    let shelf = MemoryShelf::new(alloc, Vec::new(alloc)).with("s", &text)?;
    Ok(BitingShelf::biting(shelf, most.max(1)))
}

// The same, where `gen` made both share files.
fn made(alloc: Global, most: usize) -> Result<BitingShelf, AllocError> {
    let mut shelf = lines(alloc, most)?;
    let mut err = FirmSink::new(alloc);
    gen_files(alloc, &words_of(alloc, &GEN)?, &mut shelf, &mut err);
    Ok(shelf)
}

// Whether a name holds so many bytes.
fn has_bytes(shelf: &BitingShelf, name: &str, count: usize) -> bool {
    match shelf.file(name) {
        Some(bytes) => bytes.len() == count,
        None => false,
    }
}

// Whether the run over both files finds all 120.
fn finds_all<R: Threads + Wait + Sync>(
    rt: &R,
    alloc: Global,
    shelf: &mut BitingShelf,
) -> Result<bool, AllocError> {
    let mut out = FirmSink::new(alloc);
    let mut err = FirmSink::new(alloc);
    let mut link = FirmLink::new(alloc);
    let words = words_of(alloc, &RUN)?;
    let status = poplar(
        rt, alloc, &words, shelf, &mut out, &mut err, &mut link, &OpenGate,
    );
    Ok(
        status == 0
            && out.bytes() == b"120\ta\n".as_slice()
            && err.bytes() == b"sealed 120 passed 120 levels 8\n".as_slice(),
    )
}

// What `eval` of side 0 at the prefix 1 gives: the status, out and err.
fn evaluated<H: Shelf>(
    alloc: Global,
    shelf: &mut H,
) -> Result<(u8, FirmSink, FirmSink), AllocError> {
    let mut out = FirmSink::new(alloc);
    let mut err = FirmSink::new(alloc);
    let words = words_of(alloc, &EVAL)?;
    let status = eval_file(alloc, &words, shelf, &mut out, &mut err);
    Ok((status, out, err))
}

#[test]
fn however_a_shelf_cuts_its_reads(rt: HostRuntime) -> Result<(), AllocError> {
    for most in [1, 7, 600, 1200, 65_536] {
        let mut shelf = made(rt.alloc(), most)?;
        assert!(rt; has_bytes(&shelf, "f0", 72_008) && has_bytes(&shelf, "f1", 72_008));
        assert!(rt;
            finds_all(&rt, rt.alloc(), &mut shelf)?,
            "{most} bytes a read"
        );
    }
    Ok(())
}

#[test]
fn a_file_that_ends_at_its_header(rt: HostRuntime) -> Result<(), AllocError> {
    let mut head = Vec::new(rt.alloc());
    head.extend_from_slice(&HEADER)?;
    let mut shelf = HollowShelf::new(608, head);
    let (status, out, err) = evaluated(rt.alloc(), &mut shelf)?;
    assert!(rt; status == 3 && out.bytes().is_empty());
    assert!(rt; err.bytes() == b"share file 0: cut at byte 8\n".as_slice());
    Ok(())
}

// On a shelf that tells nothing the same bytes give the same values, and the file cut behind its second record has that end.
#[test]
fn a_shelf_that_tells_nothing(rt: HostRuntime) -> Result<(), AllocError> {
    let mut shelf = made(rt.alloc(), 7)?;
    let mut file = Vec::new(rt.alloc());
    if let Some(bytes) = shelf.file("f0") {
        file.extend_from_slice(bytes)?;
    }
    let mut head = Vec::new(rt.alloc());
    head.extend_from_slice(&file[..file.len().min(1508)])?;
    let mut cut = HollowShelf::new(72_008, head);
    let mut untold = HollowShelf::new(72_008, file);
    let (status, out, _) = evaluated(rt.alloc(), &mut shelf)?;
    let (other, values, lines) = evaluated(rt.alloc(), &mut untold)?;
    assert!(rt; status == 0 && other == 0 && lines.bytes().is_empty());
    assert!(rt; !out.bytes().is_empty() && values.bytes() == out.bytes());
    let (stopped, none, err) = evaluated(rt.alloc(), &mut cut)?;
    assert!(rt; stopped == 3 && none.bytes().is_empty());
    assert!(rt; err.bytes() == b"share file 0: cut at byte 1208\n".as_slice());
    Ok(())
}
