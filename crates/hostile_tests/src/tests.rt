//! Whole commands over a shelf in memory and a link that changes one message.
//! There is one place that calls the program, since each choice of objects is proved anew.

mod messages;
mod records;
mod share_bytes;

use definitions::plain_field::{MODULUS, add};
use outside_forms::{Twist, TwistLink};
use poplar_top::poplar;
use shelf_io::{FirmSink, MemoryShelf, OpenGate};
use std::alloc::{AllocError, Global};
use std::sync::Wait;
use std::thread::Threads;

// What a command is to come to: the status, out and err.
type Expected<'a> = (u8, &'a str, &'a str);

// A message that no run has, which leaves the link as it is.
const NO_MESSAGE: u32 = 1_000_000;

const NO_TWIST: Twist = Twist::Byte { at: 0, value: 0 };

// Makes the files of strings, of which there are three.
const GEN: &str =
    "gen --width 2 --master 0000000000000000000000000000000000000000000000000000000000000000 s f0 f1";

// What a command gave.
#[derive(Drop)]
struct Ended {
    status: u8,
    out: FirmSink,
    err: FirmSink,
}

impl Ended {
    // Whether it gave just this.
    fn is(&self, expected: Expected<'_>) -> bool {
        let (status, out, err) = expected;
        self.status == status
            && self.out.bytes() == out.as_bytes()
            && self.err.bytes() == err.as_bytes()
    }
}

// The program over a shelf and a link, with the words of a row, between each two of which stands one blank.
fn run_words<R: Threads + Wait + Sync>(
    rt: &R,
    alloc: Global,
    shelf: &mut MemoryShelf,
    link: &mut TwistLink,
    row: &str,
) -> Result<Ended, AllocError> {
    let mut words = Vec::new(alloc);
    for word in row.split(' ') {
        words.push(String::from_str(alloc, word)?)?;
    }
    let mut out = FirmSink::new(alloc);
    let mut err = FirmSink::new(alloc);
    let status = poplar(
        rt, alloc, &words, shelf, &mut out, &mut err, link, &OpenGate,
    );
    Ok(Ended { status, out, err })
}

// The same over a new link that changes nothing.
fn unchanged<R: Threads + Wait + Sync>(
    rt: &R,
    alloc: Global,
    shelf: &mut MemoryShelf,
    row: &str,
) -> Result<Ended, AllocError> {
    let mut link = TwistLink::new(alloc, NO_MESSAGE, NO_TWIST);
    run_words(rt, alloc, shelf, &mut link, row)
}

// A shelf with a strings file and both share files of two strings `ab` and one `ac`, each of 3,368 bytes.
fn filled<R: Threads + Wait + Sync>(rt: &R, alloc: Global) -> Result<MemoryShelf, AllocError> {
    let mut shelf = MemoryShelf::new(alloc, Vec::new(alloc)).with("s", b"ab\nab\nac\n")?;
    unchanged(rt, alloc, &mut shelf, GEN)?;
    Ok(shelf)
}

// The bytes under a name, and none where it is not there.
fn bytes_of<'a>(shelf: &'a MemoryShelf, name: &str) -> &'a [u8] {
    match shelf.file(name) {
        Some(bytes) => bytes,
        None => &[],
    }
}

// The number of the eight bytes at a place, the lowest first, and none where they are not there.
fn number_at(bytes: &[u8], place: usize) -> Option<u64> {
    if bytes.len() < 8 || place > bytes.len() - 8 {
        return None;
    }
    let mut number = [0; 8];
    number.copy_from_slice(&bytes[place..place + 8]);
    Some(u64::from_le_bytes(number))
}

// Adds 1 to the element at a place, where there is one.
fn raise(bytes: &mut [u8], place: usize) {
    let Some(number) = number_at(bytes, place) else {
        return;
    };
    if number < MODULUS && bytes.len() >= 8 && place <= bytes.len() - 8 {
        bytes[place..place + 8].copy_from_slice(&add(number, 1).to_le_bytes());
    }
}
