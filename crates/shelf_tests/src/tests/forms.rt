use definitions::Side;
use outside_forms::*;
use shelf_io::{Link, MemoryShelf, MemorySink, Refused, Shelf, fill, write_all, write_file};
use std::alloc::{AllocError, Global};

#[test]
fn a_hollow_shelf_gives_its_head(rt: HostRuntime) -> Result<(), AllocError> {
    let mut head = Vec::new(rt.alloc());
    head.extend_from_slice(b"abc")?;
    let mut shelf = HollowShelf::new(600, head);
    let mut into = [0; 4];
    assert_eq!(rt; shelf.length("any"), Ok(Some(600)));
    assert_eq!(rt; shelf.read("any", 1, &mut into), Ok(2));
    assert_eq!(rt; into, *b"bc\0\0");
    assert_eq!(rt; shelf.read("other", 3, &mut into), Ok(0));
    assert_eq!(rt; shelf.begin("any"), Err(Refused::Failed));
    assert_eq!(rt; shelf.append("any", b"d"), Err(Refused::Failed));
    Ok(())
}

// Writes a file and reads it whole over a shelf that bites, and tells how much the first read gave.
fn first_bite(alloc: Global, most: usize) -> Option<usize> {
    let inner = MemoryShelf::new(alloc, Vec::new(alloc));
    let mut shelf = BitingShelf::biting(inner, most.max(1));
    write_file(&mut shelf, "f", b"hello", 5).ok()?;
    if shelf.file("f") != Some(b"hello".as_slice()) || shelf.length("f") != Ok(Some(5)) {
        return None;
    }
    let mut into = [0; 8];
    let first = shelf.read("f", 1, &mut into).ok()?;
    let all = fill(&mut shelf, "f", 0, &mut into).ok()?;
    if all == 5 && into == *b"hello\0\0\0" {
        Some(first)
    } else {
        None
    }
}

#[test]
fn what_bites_loses_nothing(rt: HostRuntime) {
    for most in 1..7 {
        assert_eq!(rt; first_bite(rt.alloc(), most), Some(most.min(4)));
        let inner = MemorySink::new(rt.alloc(), Vec::new(rt.alloc()));
        let mut sink = BitingSink::biting(inner, most);
        assert_eq!(rt; write_all(&mut sink, b"hello"), Ok(()));
        assert_eq!(rt; sink.bytes(), b"hello".as_slice());
    }
}

// A message with two elements, of which the second is the greatest.
const SENT: [u8; 23] = [
    1, 0, 1, 0, 0, 0, 2, 5, 0, 0, 0, 0, 0, 0, 0, 0, 0, 0, 0, 0xff, 0xff, 0xff, 0xff,
];

// A twist, a byte's place, and what side 1 then finds there in the second message that side 0 sends.
const TWISTS: [(Twist, usize, u8); 6] = [
    (Twist::Byte { at: 0, value: 9 }, 0, 9),
    (Twist::Byte { at: 22, value: 7 }, 22, 7),
    (Twist::Byte { at: 23, value: 7 }, 22, 0xff),
    (Twist::Raise { element: 0 }, 7, 6),
    (Twist::Raise { element: 1 }, 22, 0),
    (Twist::Raise { element: 2 }, 22, 0xff),
];

// Sends the message three times over a link that changes the second one, and tells whether side 1 then finds a byte there and
// the first and the third as they were.
fn finds(alloc: Global, twist: Twist, place: usize, value: u8) -> bool {
    let mut link = TwistLink::new(alloc, 1, twist);
    for _ in 0..3 {
        if link.send(Side::Zero, &SENT).is_err() {
            return false;
        }
    }
    let mut taken = [[0; 23]; 3];
    for message in &mut taken {
        let _ = link.receive(Side::One, message);
    }
    let kept = link.sent(1) == Some((Side::Zero, SENT.as_slice()));
    taken[0] == SENT && place < 23 && taken[1][place] == value && taken[2] == SENT && kept
}

#[test]
fn one_message_is_changed(rt: HostRuntime) {
    for (twist, place, value) in TWISTS {
        assert!(rt; finds(rt.alloc(), twist, place, value), "at {twist:?}");
    }
}
