//! One command over objects in memory: which call fails, how little the sinks take, and what stands afterwards.
//! There is one place that calls the program, since each choice of objects is proved anew.

use outside_forms::BitingSink;
use poplar_top::poplar;
use shelf_io::{Call, MemoryLink, MemoryShelf, MemorySink, OpenGate};
use std::alloc::{AllocError, Global};
use std::sync::Wait;
use std::thread::Threads;

// Whose call fails.
#[derive(Clone, Copy, Debug, PartialEq, Eq)]
pub(super) enum Object {
    Shelf,
    Link,
    Out,
    Err,
}

// The call of a kind that fails, by its number from 1; 0 for none. Each sink takes at most `most` bytes a write.
#[derive(Clone, Copy, Debug, PartialEq, Eq)]
pub(super) struct Trial {
    pub(super) object: Object,
    pub(super) call: Call,
    pub(super) number: u64,
    pub(super) most: usize,
}

pub(super) const NOTHING_FAILS: Trial = Trial {
    object: Object::Out,
    call: Call::Write,
    number: 0,
    most: 4096,
};

// What stands after a command.
#[derive(Drop)]
pub(super) struct Ended {
    pub(super) status: u8,
    pub(super) shelf: MemoryShelf,
    pub(super) out: BitingSink,
    pub(super) err: BitingSink,
    pub(super) link: MemoryLink,
}

// The files that a command may read.
pub(super) const GIVEN: [&str; 5] = ["s", "letters", "bits", "f0", "f1"];

// The calls of an object that are to fail.
fn plan(alloc: Global, trial: Trial, object: Object) -> Result<Vec<(Call, u64)>, AllocError> {
    let mut fail = Vec::new(alloc);
    if trial.object == object {
        fail.push((trial.call, trial.number))?;
    }
    Ok(fail)
}

// A sink of a trial.
fn sink(alloc: Global, trial: Trial, object: Object) -> Result<BitingSink, AllocError> {
    let inner = MemorySink::new(alloc, plan(alloc, trial, object)?);
    Ok(BitingSink::biting(inner, trial.most.max(1)))
}

// The program over the files of a shelf.
pub(super) fn tried<R: Threads + Wait + Sync>(
    rt: &R,
    alloc: Global,
    files: &MemoryShelf,
    row: &str,
    trial: Trial,
) -> Result<Ended, AllocError> {
    let mut shelf = MemoryShelf::new(alloc, plan(alloc, trial, Object::Shelf)?);
    for name in GIVEN {
        if let Some(bytes) = files.file(name) {
            shelf = shelf.with(name, bytes)?;
        }
    }
    let mut words = Vec::new(alloc);
    for word in row.split(' ') {
        words.push(String::from_str(alloc, word)?)?;
    }
    let mut out = sink(alloc, trial, Object::Out)?;
    let mut err = sink(alloc, trial, Object::Err)?;
    let mut link = MemoryLink::new(alloc, plan(alloc, trial, Object::Link)?);
    let status = poplar(
        rt, alloc, &words, &mut shelf, &mut out, &mut err, &mut link, &OpenGate,
    );
    Ok(Ended {
        status,
        shelf,
        out,
        err,
        link,
    })
}
