//! Small files made by the format's rules, on shelves in memory.
//! What they hold is stated by the rules too: offsets, ids and levels.

ghost use Rattle.std.specs.Prelude.{◌≡◌, ◌≤◌, length, IfOk};

use definitions::Sequence;
use field64::Fe;
use idpf_eval::{LevelWord, Share};
use prefix_bits::{ReportId, Side};
use seed_expand::Seed;
use share_format::{FileError, RecordReader};
use share_lists::{SharePart, next_list};
use shelf_io::{Call, FirmShelf, MemoryShelf, Shelf};
use std::alloc::{AllocError, Global};
use std::test::Fail;

// The header of a file of side 0 at width 1, whose records have 600 bytes.
const HEADER: [u8; 8] = [0x50, 0x50, 0x4c, 0x52, 1, 0, 1, 0];

// The offset of the bits of level 1 in a record, and that of level 8.
const FIRST_BITS: usize = 112;

const LAST_BITS: usize = 567;

// A record of side 0 at width 1 with this tag, the lowest byte of its line, and the byte of the bits of a level; the rest is 0.
fn record(line: u8, bits: usize, value: u8) -> [u8; 600] {
    let mut bytes = [0; 600];
    bytes[7] = 5;
    bytes[15] = line;
    if bits < 600 {
        bytes[bits] = value;
    }
    bytes
}

// A file of a good record, a malformed one, whose bits are neither the left nor the right one, and a good one.
fn three_records(alloc: Global) -> Result<Vec<u8>, AllocError> {
    let mut file = Vec::new(alloc);
    file.extend_from_slice(&HEADER)?;
    file.extend_from_slice(&record(0, FIRST_BITS, 0))?;
    file.extend_from_slice(&record(1, FIRST_BITS, 4))?;
    file.extend_from_slice(&record(2, LAST_BITS, 2))?;
    Ok(file)
}

// The share of tag 5 and a line that is 0 but for the right bit word of level 8.
fn share(alloc: Global, line: u64, right: bool) -> Result<Share, AllocError>
    ensures levels { IfOk result (λ s. length s.levels ≡ 8) }
{
    let word = LevelWord {
        seed: Seed([0; 32]),
        left: false,
        right: false,
        u: Fe::zero(),
        v: Fe::zero(),
        a: Fe::zero(),
        b: Fe::zero(),
    };
    let mut levels = vec![in alloc; word; 8]?;
    levels[7].right = right;
    Ok(Share {
        id: ReportId::of(5, line),
        root: Seed([0; 32]),
        corr: Seed([0; 32]),
        levels: Sequence::from_vec(levels),
    })
}

// The first two lists of the file "f" of side 0, with so many shares at most.
fn two_lists<H: Shelf>(
    alloc: Global,
    shelf: &mut H,
    most: usize,
    malformed: &mut Sequence<u32>,
) -> Result<[SharePart; 2], FileError>
    requires some { 1 ≤ most }
{
    let mut reader = RecordReader::open(alloc, shelf, "f", Side::Zero)?;
    let first = next_list(alloc, shelf, &mut reader, most, malformed)?;
    let second = next_list(alloc, shelf, &mut reader, most, malformed)?;
    Ok([first, second])
}

// Whether a list has just these shares, and tells so of more.
fn is_list(part: &SharePart, shares: &[Share], more: bool) -> bool {
    part.more == more && part.shares.as_slice() == shares
}

#[test]
fn shares_and_malformed_records_stand_apart(rt: HostRuntime) -> Result<(), Fail> {
    let alloc = rt.alloc();
    let mut shelf = FirmShelf::new(alloc).with("f", &three_records(alloc)?)?;
    let mut malformed = Sequence::new(alloc);
    let good = [share(alloc, 0, false)?, share(alloc, 2, true)?];
    let lists = two_lists(alloc, &mut shelf, 1024, &mut malformed)?;
    assert!(rt; is_list(&lists[0], &good, false));
    assert!(rt; is_list(&lists[1], &[], false));
    assert!(rt; malformed.as_slice() == [1].as_slice());
    Ok(())
}

#[test]
fn a_list_has_as_many_shares_as_it_may(rt: HostRuntime) -> Result<(), Fail> {
    let alloc = rt.alloc();
    let mut shelf = FirmShelf::new(alloc).with("f", &three_records(alloc)?)?;
    let mut malformed = Sequence::new(alloc);
    let first = [share(alloc, 0, false)?];
    let second = [share(alloc, 2, true)?];
    let lists = two_lists(alloc, &mut shelf, 1, &mut malformed)?;
    assert!(rt; is_list(&lists[0], &first, true));
    assert!(rt; is_list(&lists[1], &second, true));
    assert!(rt; malformed.as_slice() == [1].as_slice());
    Ok(())
}

// The file's records all lie in one piece, which is the second read; the first is that of the header.
#[test]
fn a_failed_read_is_told(rt: HostRuntime) -> Result<(), Fail> {
    let alloc = rt.alloc();
    let mut fail = Vec::new(alloc);
    fail.push((Call::Read, 2))?;
    let mut failing = MemoryShelf::new(alloc, fail).with("f", &three_records(alloc)?)?;
    let mut malformed = Sequence::new(alloc);
    match two_lists(alloc, &mut failing, 1024, &mut malformed) {
        Ok(_) => assert!(rt; false),
        Err(error) => assert_eq!(rt; error, FileError::Shelf),
    }
    Ok(())
}
