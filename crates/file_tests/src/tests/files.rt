//! Whole files beside those of an independent implementation, and what a failed append leaves.
//! The shelves are in memory.

ghost use Rattle.std.specs.Prelude.{◌≡◌};

mod share_files;

use pair_files::{PairSettings, write_pairs};
use prefix_bits::Prefix;
use seed_expand::Seed;
use shelf_io::{Call, MemoryShelf, Refused};
use std::alloc::{AllocError, Global};

// Settings with the bytes 0 to 31 for the master seed.
fn settings(width: u8, tag: u64) -> PairSettings
    ensures { result.width ≡ width }
{
    let mut master = [0; 32];
    for (place, byte) in master.iter_mut().enumerate() {
        *byte = place as u8;
    }
    PairSettings {
        width,
        master: Seed(master),
        tag,
    }
}

// A shelf with one name, where an append of this number, counted from 1, fails.
fn failing(alloc: Global, number: u64) -> Result<MemoryShelf, AllocError> {
    let mut fail = Vec::new(alloc);
    fail.push((Call::Append, number))?;
    MemoryShelf::new(alloc, fail).with("other", b"kept")
}

// Whether a name holds the bytes that these digits spell.
fn holds(alloc: Global, found: Option<&[u8]>, digits: &str) -> bool {
    match (found, hex::decode(alloc, digits)) {
        (Some(held), Ok(bytes)) => held == bytes.as_slice(),
        _ => false,
    }
}

#[test]
fn two_strings_of_two_bytes(rt: HostRuntime) -> Result<(), AllocError> {
    let alloc = rt.alloc();
    let mut shelf = MemoryShelf::new(alloc, Vec::new(alloc))
        .with("f1", b"old")?
        .with("other", b"kept")?;
    let strings = [Prefix::of_bytes(b"ab"), Prefix::of_bytes(b"ac")];
    let done = write_pairs(alloc, &mut shelf, "f0", "f1", &settings(2, 258), &strings);
    assert_eq!(rt; done, Ok(()));
    assert!(rt; holds(alloc, shelf.file("f0"), share_files::ZERO_WIDTH_2));
    assert!(rt; holds(alloc, shelf.file("f1"), share_files::ONE_WIDTH_2));
    assert!(rt; holds(alloc, shelf.file("other"), "6b657074"));
    Ok(())
}

#[test]
fn one_string_of_one_byte(rt: HostRuntime) -> Result<(), AllocError> {
    let alloc = rt.alloc();
    let mut shelf = MemoryShelf::new(alloc, Vec::new(alloc));
    let strings = [Prefix::of_bytes(b"a")];
    let done = write_pairs(alloc, &mut shelf, "f0", "f1", &settings(1, 5), &strings);
    assert_eq!(rt; done, Ok(()));
    assert!(rt; holds(alloc, shelf.file("f0"), share_files::ZERO_WIDTH_1));
    assert!(rt; holds(alloc, shelf.file("f1"), share_files::ONE_WIDTH_1));
    Ok(())
}

#[test]
fn the_third_append_fails(rt: HostRuntime) -> Result<(), AllocError> {
    let alloc = rt.alloc();
    let mut shelf = failing(alloc, 3)?;
    let strings = [Prefix::of_bytes(b"a")];
    let done = write_pairs(alloc, &mut shelf, "f0", "f1", &settings(1, 5), &strings);
    assert_eq!(rt; done, Err(Refused::Failed));
    assert!(rt; holds(alloc, shelf.file("f0"), "50504c5201000100"));
    assert!(rt; holds(alloc, shelf.file("f1"), "50504c5201010100"));
    assert!(rt; holds(alloc, shelf.file("other"), "6b657074"));
    Ok(())
}

#[test]
fn the_fourth_append_fails(rt: HostRuntime) -> Result<(), AllocError> {
    let alloc = rt.alloc();
    let mut shelf = failing(alloc, 4)?;
    let strings = [Prefix::of_bytes(b"a")];
    let done = write_pairs(alloc, &mut shelf, "f0", "f1", &settings(1, 5), &strings);
    assert_eq!(rt; done, Err(Refused::Failed));
    assert!(rt; holds(alloc, shelf.file("f0"), share_files::ZERO_WIDTH_1));
    assert!(rt; holds(alloc, shelf.file("f1"), "50504c5201010100"));
    assert!(rt; holds(alloc, shelf.file("other"), "6b657074"));
    Ok(())
}
