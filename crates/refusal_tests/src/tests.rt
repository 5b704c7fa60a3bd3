//! Whole commands over objects in memory, one of whose calls fails.
//! What a command then leaves is a front of what it gives where nothing fails.

mod refusals;
mod trial;
mod ways;

use shelf_io::MemoryShelf;
use std::alloc::{AllocError, Global};
use std::sync::Wait;
use std::thread::Threads;
use trial::{Ended, NOTHING_FAILS, tried};

// What a command gives where nothing fails: its words, with one blank between each two, its status, out and err.
#[derive(Clone, Copy)]
struct Whole {
    row: &'static str,
    status: u8,
    out: &'static str,
    err: &'static str,
}

const EVAL: Whole = Whole {
    row: "eval 0 1 bits",
    status: 0,
    out: "00000000000000000000000000000000\t5645781439922100137\t3250058476778643772\n",
    err: "refused side 0 record 0\n",
};

const GEN: Whole = Whole {
    row: "gen --width 2 --master 0000000000000000000000000000000000000000000000000000000000000000 s g0 g1",
    status: 0,
    out: "",
    err: "",
};

const RUN: Whole = Whole {
    row: "run --threshold 2 f0 f1",
    status: 0,
    out: "2\tab\n",
    err: "sealed 3 passed 3 levels 16\n",
};

// The same files at a threshold that no prefix has, so that the walk ends at its first level, after six messages.
const SHORT_RUN: Whole = Whole {
    row: "run --threshold 4 f0 f1",
    status: 0,
    out: "",
    err: "sealed 3 passed 3 levels 1\n",
};

const FIND: Whole = Whole {
    row: "find --width 2 --threshold 2 s",
    status: 0,
    out: "2\tab\n",
    err: "sealed 3 passed 3 levels 16\n",
};

const MAKE: Whole = Whole {
    row: "make --reports 3 --width 1 --threshold 1",
    status: 0,
    out: "heavy 2 sum 3\n",
    err: "sealed 3 passed 3 levels 8\n",
};

const SHORT_MAKE: Whole = Whole {
    row: "make --reports 3 --width 1 --threshold 4",
    status: 0,
    out: "heavy 0 sum 0\n",
    err: "sealed 3 passed 3 levels 1\n",
};

const CAPPED: Whole = Whole {
    row: "find --width 2 --threshold 1 --cap 4 letters",
    status: 5,
    out: "",
    err: "frontier cap: level 8 wants 6\n",
};

// Whether a trial ended as the command does where nothing fails.
fn is_whole(whole: Whole, ended: &Ended) -> bool {
    ended.status == whole.status
        && ended.out.bytes() == whole.out.as_bytes()
        && ended.err.bytes() == whole.err.as_bytes()
}

// A share file of side 0 at width 1, of two records of zero bytes, the first of which has a further bit set.
fn with_bits(alloc: Global, shelf: MemoryShelf) -> Result<MemoryShelf, AllocError> {
    let mut file = vec![in alloc; 0_u8; 1208]?;
    if file.len() == 1208 {
        file[..8].copy_from_slice(&[0x50, 0x50, 0x4c, 0x52, 1, 0, 1, 0]);
        file[120] = 4;
    }
    shelf.with("bits", &file)
}

// A shelf with two strings files, the share file above, and both share files that `gen` makes of the first strings file.
fn filled<R: Threads + Wait + Sync>(rt: &R, alloc: Global) -> Result<MemoryShelf, AllocError> {
    let strings = MemoryShelf::new(alloc, Vec::new(alloc))
        .with("s", b"ab\nab\nac\n")?
        .with("letters", b"a\nb\nc\n")?;
    let made = tried(rt, alloc, &strings, GEN.row, NOTHING_FAILS)?;
    let mut shelf = with_bits(alloc, strings)?;
    for (name, made_name) in [("f0", "g0"), ("f1", "g1")] {
        if let Some(bytes) = made.shelf.file(made_name) {
            shelf = shelf.with(name, bytes)?;
        }
    }
    Ok(shelf)
}
