//! `run` over share files in which a record is changed, doubled with a change, or cut.
//! A report that fails a level is left out from there on, and one with two contents under its id from the start.

use super::{Expected, bytes_of, filled, raise, unchanged};
use std::alloc::{AllocError, Global};

// How a file is made of another.
#[derive(Clone, Copy)]
enum Change {
    // Its element at a place is raised by 1.
    Raised(usize),
    // Behind it stands its first record once more, with the element at a place of that record raised by 1.
    Clashing(usize),
    // Its last byte is missing.
    Cut,
}

// A name, the file that it is made of, and how: B of level 1 and of level 5 of record 1, a copy of record 0 with another B of
// level 1, and a cut file.
const CHANGED: [(&str, &str, Change); 4] = [
    ("first0", "f0", Change::Raised(1265)),
    ("fifth0", "f0", Change::Raised(1525)),
    ("clash0", "f0", Change::Clashing(137)),
    ("cut1", "f1", Change::Cut),
];

// A threshold, both files, and what `run` gives.
const ROWS: [(&str, Expected<'static>); 5] = [
    (
        "run --threshold 1 first0 f1",
        (0, "1\tab\n1\tac\n", "sealed 3 passed 2 levels 16\n"),
    ),
    (
        "run --threshold 2 first0 f1",
        (0, "", "sealed 3 passed 2 levels 16\n"),
    ),
    (
        "run --threshold 3 fifth0 f1",
        (0, "", "sealed 3 passed 2 levels 5\n"),
    ),
    (
        "run --threshold 1 clash0 f1",
        (0, "1\tab\n1\tac\n", "sealed 2 passed 2 levels 16\n"),
    ),
    (
        "run --threshold 1 f0 cut1",
        (3, "", "share file 1: cut at byte 2248\n"),
    ),
];

// A file's bytes after a change.
fn changed(alloc: Global, bytes: &[u8], change: Change) -> Result<Vec<u8>, AllocError> {
    let mut file = Vec::new(alloc);
    file.extend_from_slice(bytes)?;
    match change {
        Change::Raised(place) => raise(&mut file, place),
        Change::Clashing(place) => {
            if bytes.len() >= 1128 {
                let mut record = Vec::new(alloc);
                record.extend_from_slice(&bytes[8..1128])?;
                raise(&mut record, place);
                file.extend_from_slice(&record)?;
            }
        }
        Change::Cut => {
            file.pop();
        }
    }
    Ok(file)
}

#[test]
fn records_that_are_changed(rt: HostRuntime) -> Result<(), AllocError> {
    let mut shelf = filled(&rt, rt.alloc())?;
    for (name, source, change) in CHANGED {
        let file = changed(rt.alloc(), bytes_of(&shelf, source), change)?;
        shelf = shelf.with(name, &file)?;
    }
    for (row, expected) in ROWS {
        let ended = unchanged(&rt, rt.alloc(), &mut shelf, row)?;
        assert!(rt; ended.is(expected), "at {row}");
    }
    Ok(())
}
