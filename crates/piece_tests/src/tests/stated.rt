//! `eval` and `run` over files that are stated to have about 2^28 bytes, of which none behind the header comes.
//! They are refused at once: what is asked of the shelf is counted.

ghost use Rattle.std.specs.Prelude.{◌≡◌, None};

use super::{HEADER, words_of};
use outside_forms::HollowShelf;
use poplar_top::poplar;
use shelf_io::{FirmLink, FirmSink, OpenGate, Refused, Shelf};
use std::alloc::{AllocError, Global};
use std::sync::Wait;
use std::thread::Threads;

// A shelf that gives what the hollow one below it gives, tells nothing, and counts what it is asked for: the calls, and the bytes of its
// longest read.
#[derive(Drop)]
struct CountingShelf {
    inner: HollowShelf,
    calls: u32,
    longest: usize,
}

impl CountingShelf {
    fn count(&mut self)
        ensures below { self.new.inner ≡ self.old.inner }
    {
        self.calls = self.calls.saturating_add(1);
    }
}

impl Shelf for CountingShelf {
    ghost files = { λ _. None };

    ghost faults = { λ shelf. shelf.inner.faults };

    fn length(&mut self, name: &str) -> Result<Option<u64>, Refused> {
        self.count();
        self.inner.length(name)
    }

    fn read(&mut self, name: &str, from: u64, into: &mut [u8]) -> Result<usize, Refused> {
        self.count();
        self.longest = self.longest.max(into.len());
        self.inner.read(name, from, into)
    }

    fn begin(&mut self, name: &str) -> Result<(), Refused> {
        self.count();
        self.inner.begin(name)
    }

    fn append(&mut self, name: &str, bytes: &[u8]) -> Result<(), Refused> {
        self.count();
        self.inner.append(name, bytes)
    }
}

// Whether a command over files of a stated length, with the header of side 0 alone, is refused with this line on err, after at most so
// many calls, each for no more than a piece of a file.
fn is_refused<R: Threads + Wait + Sync>(
    rt: &R,
    alloc: Global,
    list: &[&str],
    length: u64,
    line: &str,
    most: u32,
) -> Result<bool, AllocError> {
    let mut head = Vec::new(alloc);
    head.extend_from_slice(&HEADER)?;
    let mut shelf = CountingShelf {
        inner: HollowShelf::new(length, head),
        calls: 0,
        longest: 0,
    };
    let mut out = FirmSink::new(alloc);
    let mut err = FirmSink::new(alloc);
    let mut link = FirmLink::new(alloc);
    let words = words_of(alloc, list)?;
    let status = poplar(
        rt, alloc, &words, &mut shelf, &mut out, &mut err, &mut link, &OpenGate,
    );
    let told = status == 3 && out.bytes().is_empty() && err.bytes() == line.as_bytes();
    Ok(told && shelf.calls <= most && shelf.longest <= 65_536)
}

// The lengths: one byte more than a file may have, the most that it may have, which is no whole number of records, and the most that
// 447,392 records of 600 bytes have. The first is judged by its length alone, the second by its header too, and the third is cut where
// its first record was to be.
#[test]
fn no_byte_behind_the_header(rt: HostRuntime) -> Result<(), AllocError> {
    for list in [
        ["eval", "0", "1", "f0"].as_slice(),
        ["run", "--threshold", "1", "f0", "f1"].as_slice(),
    ] {
        for (length, line, most) in [
            (268_435_457, "share file 0: too long\n", 1),
            (268_435_456, "share file 0: cut at byte 268435208\n", 2),
            (268_435_208, "share file 0: cut at byte 8\n", 3),
        ] {
            assert!(rt;
                is_refused(&rt, rt.alloc(), list, length, line, most)?,
                "{length} bytes"
            );
        }
    }
    Ok(())
}
