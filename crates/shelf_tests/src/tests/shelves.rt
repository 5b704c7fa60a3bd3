use definitions::Side;
use shelf_io::*;
use std::alloc::{AllocError, Global};
use std::fs;

// The list of one call that is to fail.
fn failing(alloc: Global, call: Call, number: u64) -> Result<Vec<(Call, u64)>, AllocError> {
    let mut fail = Vec::new(alloc);
    fail.push((call, number))?;
    Ok(fail)
}

// Side 0 sends three messages and side 1 takes four bytes, through the trait: which were sent, and what was taken.
fn send_three<L: Link>(link: &mut L) -> ([bool; 3], [u8; 4]) {
    let first = link.send(Side::Zero, b"ab").is_ok();
    let second = link.send(Side::Zero, b"cd").is_ok();
    let third = link.send(Side::Zero, b"ef").is_ok();
    let mut taken = [0; 4];
    let _ = link.receive(Side::One, &mut taken);
    ([first, second, third], taken)
}

// Whether a name holds these bytes.
fn holds(found: Option<&[u8]>, bytes: &[u8]) -> bool {
    match found {
        Some(held) => held == bytes,
        None => false,
    }
}

// Whether a side sent these bytes.
fn is_message(found: Option<(Side, &[u8])>, from: Side, bytes: &[u8]) -> bool {
    match found {
        Some((side, sent)) => side == from && sent == bytes,
        None => false,
    }
}

// Whether a gate lets side 1's worker go on at tile 3, after an upload and a note, through the trait.
fn goes_on<G: Gate>(gate: &G) -> bool {
    gate.at_upload(Side::One, 0);
    let said = gate.at(Side::One, 2, 3);
    gate.found(Side::One, 2, 3, 1);
    said == Say::Go
}

#[test]
fn the_second_read_fails(rt: HostRuntime) {
    let alloc = rt.alloc();
    let fail = failing(alloc, Call::Read, 2).expect(&rt, "memory");
    let mut shelf = MemoryShelf::new(alloc, fail)
        .with("f", b"abc")
        .expect(&rt, "memory");
    let mut into = [0; 2];
    assert_eq!(rt; shelf.length("f"), Ok(Some(3)));
    assert_eq!(rt; shelf.length("g"), Ok(None));
    assert_eq!(rt; shelf.read("f", 1, &mut into), Ok(2));
    assert_eq!(rt; into, [98, 99]);
    assert_eq!(rt; shelf.read("f", 0, &mut into), Err(Refused::Failed));
    assert_eq!(rt; into, [98, 99]);
    assert_eq!(rt; shelf.read("f", 0, &mut into), Ok(2));
    assert_eq!(rt; write_file(&mut shelf, "g", b"xyz", 2), Ok(()));
    assert!(rt; holds(shelf.file("g"), b"xyz"));
    assert!(rt; holds(shelf.file("f"), b"abc"));
    assert!(rt; shelf.file("h").is_none());
}

#[test]
fn the_first_write_fails(rt: HostRuntime) {
    let alloc = rt.alloc();
    let fail = failing(alloc, Call::Write, 1).expect(&rt, "memory");
    let mut sink = MemorySink::new(alloc, fail);
    assert_eq!(rt; write_all(&mut sink, b"lost"), Err(Refused::Failed));
    assert_eq!(rt; sink.bytes(), b"".as_slice());
    assert_eq!(rt; write_all(&mut sink, b"kept"), Ok(()));
    assert_eq!(rt; sink.bytes(), b"kept".as_slice());
}

#[test]
fn the_third_send_fails(rt: HostRuntime) {
    let alloc = rt.alloc();
    let fail = failing(alloc, Call::Send, 3).expect(&rt, "memory");
    let mut link = MemoryLink::new(alloc, fail);
    assert_eq!(rt; send_three(&mut link), ([true, true, false], *b"abcd"));
    assert!(rt; is_message(link.sent(1), Side::Zero, b"cd"));
    assert!(rt; link.sent(2).is_none());
    assert_eq!(rt; link.send(Side::One, b"gh"), Ok(()));
    assert!(rt; is_message(link.sent(2), Side::One, b"gh"));
}

#[test]
fn the_firm_forms_hold_all(rt: HostRuntime) {
    let alloc = rt.alloc();
    let mut shelf = FirmShelf::new(alloc)
        .with("f", b"old")
        .expect(&rt, "memory");
    assert_eq!(rt; write_file(&mut shelf, "f", b"hello", 2), Ok(()));
    let mut into = [0; 8];
    if let Ok(Some(_)) = shelf.length("f") {
        assert_eq!(rt; read_whole(&mut shelf, "f", &mut into), Ok(5));
        assert_eq!(rt; into, *b"hello\0\0\0");
        assert_eq!(rt; fill(&mut shelf, "f", 3, &mut into), Ok(2));
        assert_eq!(rt; into, *b"lollo\0\0\0");
    }
    assert!(rt; holds(shelf.file("f"), b"hello"));
    let mut sink = FirmSink::new(alloc);
    assert_eq!(rt; write_all(&mut sink, b"ab"), Ok(()));
    assert_eq!(rt; sink.bytes(), b"ab".as_slice());
    let mut link = FirmLink::new(alloc);
    assert_eq!(rt; send_three(&mut link), ([true, true, true], *b"abcd"));
    assert!(rt; is_message(link.sent(2), Side::Zero, b"ef"));
    assert!(rt; goes_on(&OpenGate));
}

#[test]
fn the_files_of_the_system(rt: HostRuntime) {
    let mut shelf = FileShelf::new(&rt);
    let mut into = [0; 8];
    assert_eq!(rt; shelf.length("f"), Ok(None));
    assert_eq!(rt; shelf.read("f", 0, &mut into), Err(Refused::Failed));
    assert_eq!(rt; shelf.append("f", b"no"), Err(Refused::Failed));
    assert_eq!(rt; write_file(&mut shelf, "f", b"hello", 2), Ok(()));
    assert_eq!(rt; shelf.length("f"), Ok(Some(5)));
    assert_eq!(rt; fill(&mut shelf, "f", 1, &mut into), Ok(4));
    assert_eq!(rt; into, *b"ello\0\0\0\0");
    assert_eq!(rt; shelf.begin("f"), Ok(()));
    assert_eq!(rt; shelf.length("f"), Ok(Some(0)));
}

#[test]
fn a_writer_of_the_system(rt: HostRuntime) {
    let file = fs::create(&rt, "written").expect(&rt, "file");
    let mut sink = StdSink::new(file);
    assert_eq!(rt; write_all(&mut sink, b"hello"), Ok(()));
    let mut shelf = FileShelf::new(&rt);
    assert_eq!(rt; shelf.length("written"), Ok(Some(5)));
    let read_only = fs::open(&rt, "written").expect(&rt, "file");
    let mut refusing = StdSink::new(read_only);
    assert_eq!(rt; write_all(&mut refusing, b"x"), Err(Refused::Failed));
}
