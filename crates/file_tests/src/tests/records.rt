//! Records and files by the worked rows, and by a file of an independent implementation.
//! The file is that of side 0 for the one string `a`, at width 1.

ghost use Rattle.std.specs.Prelude.{◌≡◌, ◌*◌, ◌≤◌, ◌<◌, ◌+◌, None, length, vec_len, IfOk};

use definitions::Sequence;
use field64::Fe;
use idpf_eval::{LevelWord, Share, same_share};
use prefix_bits::{ReportId, Side};
use seed_expand::Seed;
use share_format::{
    FileError, Header, Record, RecordError, RecordReader, read_record, record_len, write_record,
};
use shelf_io::{Call, MemoryShelf, Refused, Shelf};
use std::alloc::{AllocError, Global};

const FILE: &str = "\
    50504c520100010000000000000000050000000000000000e7599d61b9b1dcb204b06b98e43e6e128f7f5586abe4d072\
    4f59670131274e33031a1d7da3d4c77f89d7b696f026cd2561a86a610759ae52486d287ddfb7794c0056518ca071cc53\
    256ebc18ab49a4b1be5365a0732832d7d84a4c04d998d9fb0112b7ce717ad899546dcfe6cfc9a791f2e7249009fd22ed\
    6e15dd3385dfa1ed5cb4c4cba910af42b7b01c315a5f03e6dc8b3a018caab774a59705b3b1d3f312a603cae225098d60\
    72d6e03df308d064f1e0edb408f9687fd92eefaeba13206523c6de054734164656f4d961c2627d409f38111a07d9816f\
    78659a082e2c604e485800b11a8a51851393fa553f7836e54b3730fcddab2d78a3d64899b00927a09ba321881d7ae003\
    87adef14f87abbe88e4788fe4aa806ba9a0b66cb1f7fbfed6847ed022fb6c4ca54b25074adbd7217826e247bb88802f7\
    c963ef20545cdbc8cbd3fc282c6aff13edd4b336f79851ff6c7902d0dc03026edc939505ce0562ae5d853e7d013af716\
    e63d4619653650e6fc442b9719cfa36a69cac4dc7baa91717ca29e4afd1675b4a60e678bc0b71b1d58dfe1fc1b74500d\
    aff01b1cf8f9fdb64d9238889c03fa80b15a731b8fe811c77151cdc4a7ecfb220106734383f653de565b4fcc8267b7fb\
    4e1ce124b3173b660e34a0e7b43f3099a493007619c80a3064e5b95094a2028291d7bc1944873fd7a9e6db63aaa7d12f\
    e5568a6976cb85c522fffd4fadb232821fa663a5fc90003dd48aadc7af391dc24ba4a3d2883a4b77475ffe09284efc01\
    d023d2f3e5d061753cd961c19a0e1680368d4efcb8007e09a0addb2fc8cfe254";

const HEADER: [u8; 8] = [0x50, 0x50, 0x4c, 0x52, 1, 0, 1, 0];

fn digit(letter: u8) -> u8
    ensures { result < 16 }
{
    if letter.is_ascii_digit() {
        letter - b'0'
    } else {
        letter.wrapping_sub(b'a') % 6 + 10
    }
}

// The bytes of two hexadecimal digits each.
fn bytes_of(alloc: Global, text: &str) -> Result<Vec<u8>, AllocError> {
    let digits = text.as_bytes();
    let mut bytes = Vec::new(alloc);
    for k in 0..digits.len() / 2 {
        bytes.push(16 * digit(digits[2 * k]) + digit(digits[2 * k + 1]))?;
    }
    Ok(bytes)
}

// A share of this width with the greatest element and both bits in each level.
fn share_of(alloc: Global, width: u8) -> Result<Share, AllocError>
    requires least { 1 ≤ width }
    requires most { width ≤ 32 }
    ensures levels { IfOk result (λ s. length s.levels ≡ 8 * width) }
{
    let word = LevelWord {
        seed: Seed([7; 32]),
        left: true,
        right: true,
        u: Fe::zero().sub(Fe::one()),
        v: Fe::from_u128(5),
        a: Fe::one(),
        b: Fe::zero(),
    };
    Ok(Share {
        id: ReportId::of(3, 4),
        root: Seed([8; 32]),
        corr: Seed([9; 32]),
        levels: Sequence::from_vec(vec![in alloc; word; 8 * usize::from(width)]?),
    })
}

// Whether a share of this width comes back from its record, which has so many bytes.
fn comes_back(alloc: Global, width: u8, len: usize) -> Result<bool, AllocError>
    requires least { 1 ≤ width }
    requires most { width ≤ 32 }
{
    let share = share_of(alloc, width)?;
    let mut bytes = Vec::new(alloc);
    write_record(&share, &mut bytes)?;
    if bytes.len() != len || record_len(width) as usize != len {
        return Ok(false);
    }
    match read_record(alloc, &bytes, width) {
        Ok(read) => Ok(same_share(&read, &share)),
        Err(_) => Ok(false),
    }
}

#[test]
fn shares_come_back_at_three_widths(rt: HostRuntime) -> Result<(), AllocError> {
    assert!(rt; comes_back(rt.alloc(), 1, 600)?);
    assert!(rt; comes_back(rt.alloc(), 2, 1120)?);
    assert!(rt; comes_back(rt.alloc(), 32, 16720)?);
    Ok(())
}

#[test]
fn the_known_file_is_written_as_it_was_read(rt: HostRuntime) -> Result<(), AllocError> {
    let file = bytes_of(rt.alloc(), FILE)?;
    let header = Header::read(&file, Side::Zero);
    assert_eq!(rt;
        header,
        Ok(Header {
            side: Side::Zero,
            width: 1
        })
    );
    let mut written = Vec::new(rt.alloc());
    written.extend_from_slice(&HEADER)?;
    assert_eq!(rt; file.len(), 608);
    let share = read_record(rt.alloc(), &file[8..], 1).expect(&rt, "the record is a share");
    write_record(&share, &mut written)?;
    assert!(rt; written.as_slice() == file.as_slice());
    Ok(())
}

// A file of side 0 at width 1 with so many bytes of records, all 0 but for those at a place of the first one.
fn zero_file(alloc: Global, len: usize, at: usize, bytes: &[u8]) -> Result<Vec<u8>, AllocError>
    requires room { 8 + at + length bytes.now ≤ len }
    ensures len { IfOk result (λ file. vec_len file ≡ len) }
{
    let mut file = vec![in alloc; 0; len]?;
    file[..8].copy_from_slice(&HEADER);
    file[8 + at..8 + at + bytes.len()].copy_from_slice(bytes);
    Ok(file)
}

// How the first record of such a file is refused.
fn fault_of(alloc: Global, at: usize, bytes: &[u8]) -> Result<Option<RecordError>, AllocError>
    requires room { at + length bytes.now ≤ 600 }
{
    let file = zero_file(alloc, 608, at, bytes)?;
    match read_record(alloc, &file[8..], 1) {
        Ok(_) => Ok(None),
        Err(e) => Ok(Some(e)),
    }
}

#[test]
fn the_first_level_at_fault_is_told(rt: HostRuntime) -> Result<(), AllocError> {
    let alloc = rt.alloc();
    let p = [1, 0, 0, 0, 255, 255, 255, 255];
    let below = [0, 0, 0, 0, 255, 255, 255, 255];
    assert_eq!(rt;
        fault_of(alloc, 112, &[4])?,
        Some(RecordError::Bits { level: 1 })
    );
    assert_eq!(rt;
        fault_of(alloc, 113, &p)?,
        Some(RecordError::Element { level: 1 })
    );
    assert_eq!(rt;
        fault_of(alloc, 592, &p)?,
        Some(RecordError::Element { level: 8 })
    );
    assert_eq!(rt; fault_of(alloc, 113, &below)?, None);
    assert_eq!(rt; fault_of(alloc, 112, &[3])?, None);
    Ok(())
}

// What a reader of a file gives next, as a word: a share, the number of a malformed record, or another.
#[derive(Clone, Copy, Debug, PartialEq, Eq)]
enum Told {
    Share,
    Malformed(u32),
    End,
    Refused(FileError),
}

fn said(answer: Result<Record, FileError>) -> Told {
    match answer {
        Ok(Record::Share(_)) => Told::Share,
        Ok(Record::Malformed(number)) => Told::Malformed(number),
        Ok(Record::End) => Told::End,
        Err(e) => Told::Refused(e),
    }
}

// What a reader of the file "f" gives in its first four calls, or why it is not opened.
fn four_answers<H: Shelf>(
    alloc: Global,
    shelf: &mut H,
    side: Side,
) -> Result<[Told; 4], FileError> {
    let mut reader = RecordReader::open(alloc, shelf, "f", side)?;
    let first = said(reader.next(shelf));
    let second = said(reader.next(shelf));
    let third = said(reader.next(shelf));
    let fourth = said(reader.next(shelf));
    Ok([first, second, third, fourth])
}

// The same of a file in memory, with a number of the reads that is to fail, 0 for none.
fn answers(
    alloc: Global,
    file: &[u8],
    side: Side,
    fails: u64,
) -> Result<Result<[Told; 4], FileError>, AllocError> {
    let mut fail = Vec::new(alloc);
    fail.push((Call::Read, fails))?;
    let mut shelf = MemoryShelf::new(alloc, fail).with("f", file)?;
    Ok(four_answers(alloc, &mut shelf, side))
}

#[test]
fn records_come_in_order(rt: HostRuntime) -> Result<(), AllocError> {
    let alloc = rt.alloc();
    let file = zero_file(alloc, 1208, 112, &[4])?;
    let all = [Told::Malformed(0), Told::Share, Told::End, Told::End];
    assert_eq!(rt; answers(alloc, &file, Side::Zero, 0)?, Ok(all));
    assert_eq!(rt;
        answers(alloc, &file, Side::Zero, 1)?,
        Err(FileError::Shelf)
    );
    let later = [
        Told::Refused(FileError::Shelf),
        Told::Malformed(0),
        Told::Share,
        Told::End,
    ];
    assert_eq!(rt; answers(alloc, &file, Side::Zero, 2)?, Ok(later));
    Ok(())
}

#[test]
fn a_file_is_judged_when_it_is_opened(rt: HostRuntime) -> Result<(), AllocError> {
    let alloc = rt.alloc();
    let file = zero_file(alloc, 607, 0, &[])?;
    assert_eq!(rt;
        answers(alloc, &file, Side::Zero, 0)?,
        Err(FileError::Cut { at: 8 })
    );
    assert_eq!(rt;
        answers(alloc, &file, Side::One, 0)?,
        Err(FileError::Header { at: 5 })
    );
    assert_eq!(rt; answers(alloc, &HEADER, Side::Zero, 0)?, Ok([Told::End; 4]));
    assert_eq!(rt;
        answers(alloc, &HEADER[..7], Side::Zero, 0)?,
        Err(FileError::Header { at: 7 })
    );
    let mut none = MemoryShelf::new(alloc, Vec::new(alloc));
    assert_eq!(rt;
        four_answers(alloc, &mut none, Side::Zero),
        Err(FileError::Missing)
    );
    Ok(())
}

// A shelf that tells nothing: every name has this length, and nothing can be read behind the header of side 0.
#[derive(Drop)]
struct Hollow {
    length: u64,
}

impl Shelf for Hollow {
    ghost files = { λ _. None };

    ghost faults = { λ _. 0 };

    fn length(&mut self, _name: &str) -> Result<Option<u64>, Refused> {
        Ok(Some(self.length))
    }

    fn read(&mut self, _name: &str, from: u64, into: &mut [u8]) -> Result<usize, Refused> {
        if from != 0 {
            return Ok(0);
        }
        let n = into.len().min(8);
        into[..n].copy_from_slice(&HEADER[..n]);
        Ok(n)
    }

    fn begin(&mut self, _name: &str) -> Result<(), Refused> {
        Err(Refused::Memory)
    }

    fn append(&mut self, _name: &str, _bytes: &[u8]) -> Result<(), Refused> {
        Err(Refused::Memory)
    }
}

// The answers of a reader over such a shelf.
fn over_hollow(alloc: Global, length: u64) -> Result<[Told; 4], FileError> {
    four_answers(alloc, &mut Hollow { length }, Side::Zero)
}

#[test]
fn the_length_decides_before_any_record(rt: HostRuntime) {
    let alloc = rt.alloc();
    let cut = Told::Refused(FileError::Cut { at: 8 });
    assert_eq!(rt;
        over_hollow(alloc, 268435457),
        Err(FileError::TooLong { length: 268435457 })
    );
    assert_eq!(rt;
        over_hollow(alloc, 268435456),
        Err(FileError::Cut { at: 268435208 })
    );
    assert_eq!(rt; over_hollow(alloc, 1208), Ok([cut; 4]));
}
