//! Reading of a share file from a shelf, one record at a time.
//! The file is judged by its length and its header when it is opened; each call then takes the bytes of one record from a piece
//! of the file, which is read anew when it is used up.

ghost use Rattle.std.specs.Prelude.{◌≡◌, ◌≢◌, ◌≤◌, ℕ, Some, Ok, Err, [], List, length, take, IfOk, IfErr, IfSome, IsTrue};
ghost use Rattle.std.specs.FinMap.{get};
ghost use Rattle.shelf_io.specs.Files.{IfThere};
ghost use Rattle.share_format.specs.Spelling.{record_len};
ghost use Rattle.share_format.specs.ShareFile.{most_bytes, record_case, records};
ghost use Rattle.share_format.specs.Readings.{Reading, IsSound, Fits, start, next_offset};
ghost use Rattle.share_format.specs.Causes.{Gives, HasFileCause};
ghost use Rattle.share_format.specs.Answers.{Judged, opening, answer, record_answer, IsGiven, Stands};
ghost use Rattle.share_format.specs.declared.file_error.FileError.TheVariants.{Cut, Shelf, Memory};
ghost use Rattle.share_format.specs.declared.records.Record.TheVariants.{End};

use crate::file_error::FileError;
use crate::gathering::gather;
use crate::headers::{HEADER_LEN, Header};
use crate::piece::Piece;
use crate::record_error::RecordError;
use crate::record_reading::read_record;
use crate::record_writing::record_len;
use crate::records::Record;
use prefix_bits::Side;
use shelf_io::{Shelf, fill};
use std::alloc::Global;
use std::marker::Model;

/// The most bytes of a share file.
const MOST_BYTES: u64 = 1 << 28;

/// Reads the records of a share file in order, from the shelf on which it was opened. It holds one piece of the file,
/// 65,536 bytes, and the bytes of one record. However the shelf cuts its reads, the records are the same.
#[derive(Drop)]
pub struct RecordReader<'n> {
    alloc: Global,
    name: &'n str,
    side: Side,
    width: u8,
    count: u32,
    next: u32,
    cut: bool,
    piece: Piece,
    buffer: Vec<u8>,
}

impl<'n> Model for RecordReader<'n> {
    ghost use Rattle.std.specs.Prelude.{◌≡◌, vec_len};
    ghost use Rattle.share_format.specs.Spelling.{record_len};
    ghost use Rattle.share_format.specs.Readings.{Reading, IsSound};

    ghost Value = { Reading };

    ghost view = { λ r. record { name = r.name.now; side = r.side; width = r.width; count = r.count; next = r.next; cut = r.cut; held = r.piece } };

    ghost invariant = { λ r.
        IsSound (record { name = r.name.now; side = r.side; width = r.width; count = r.count; next = r.next; cut = r.cut; held = r.piece })
        × (vec_len r.buffer ≡ record_len r.width) };
}

/// What the header of a file and its size, in bytes, come to: the width and the number of records, or what is wrong. `head` is
/// the first 8 bytes, or all where there are fewer.
fn judged(head: &[u8], size: u64, side: Side) -> Result<(u8, u32), FileError>
    requires front { length head.now ≤ size }
    requires most { size ≤ most_bytes }
    ensures exact { (bytes : List ℕ) → length bytes ≡ size → take 8 bytes ≡ head.now → Judged side bytes result }
    ensures sound { IfOk result (λ shape. IsSound (start [] side shape.0 shape.1)) }
    ensures own { IfErr result (λ e. e ≢ Shelf) }
{
    let header = match Header::read(head, side) {
        Ok(header) => header,
        Err(at) => return Err(FileError::Header { at }),
    };
    let rest = size as u32 - HEADER_LEN as u32;
    let record = record_len(header.width);
    if rest % record != 0 {
        return Err(FileError::Cut {
            at: size as u32 - rest % record,
        });
    }
    Ok((header.width, rest / record))
}

/// What the record of these bytes gives, by its number. The only refusal is want of memory.
#[tactic(auto, using(crate::proofs::ReaderSteps::record_steps))]
fn given(alloc: Global, bytes: &[u8], width: u8, number: u32) -> Result<Record, FileError>
    requires least { 1 ≤ width }
    requires most { width ≤ 32 }
    requires long { length bytes.now ≡ record_len width }
    ensures exact { IfOk result (λ r. r ≡ answer number (Some (record_case width bytes.now))) }
    ensures levels { IfOk result (λ r. IsGiven width number r) }
    ensures some { IfOk result (λ r. r ≢ End) }
    ensures memory { IfErr result (λ e. e ≡ Memory) }
{
    match read_record(alloc, bytes, width) {
        Ok(share) => Ok(Record::Share(share)),
        Err(RecordError::Memory) => Err(FileError::Memory),
        Err(RecordError::Bits { .. }) => Ok(Record::Malformed(number)),
        Err(RecordError::Element { .. }) => Ok(Record::Malformed(number)),
    }
}

impl<'n> RecordReader<'n> {
    /// A reader of the file of this name, before its first record. It asks the length, then reads the header. The refusals,
    /// in this order: `Missing` where there is no such file; `TooLong` where it has more than 2^28 bytes; `Header` at its
    /// first byte that is missing or wrong; `Cut` where the bytes behind the header are no whole number of records, with the
    /// offset at which the last one begins; `Memory` for want of room for a piece and one record. `Shelf` comes where the shelf failed.
    /// The content of the shelf stays.
    pub fn open<H: Shelf>(
        alloc: Global,
        shelf: &mut H,
        name: &'n str,
        side: Side,
    ) -> Result<RecordReader<'n>, FileError>
        ensures exact { IfSome (H.files shelf.old) (λ held. Gives result (opening name.now side (get held name.now))) }
        ensures starts { IfOk result (λ reader. reader ≡ start name.now side reader.width reader.count) }
        ensures sound { IfOk result (λ reader. IsSound reader) }
        ensures fits { IfOk result (λ reader. Fits (H.files shelf.new) reader) }
        ensures kept { H.files shelf.new ≡ H.files shelf.old }
        ensures cause { HasFileCause (H.faults shelf.old) (H.faults shelf.new) result }
    {
        let Some(size) = shelf.length(name)? else {
            return Err(FileError::Missing);
        };
        if size > MOST_BYTES {
            return Err(FileError::TooLong { length: size });
        }
        let mut head = [0; HEADER_LEN];
        let front = &mut head[..size.min(HEADER_LEN as u64) as usize];
        let filled = fill(shelf, name, 0, front)?;
        let (width, count) = judged(&front[..filled], size, side)?;
        let piece = Piece::new(alloc)?;
        let buffer = vec![in alloc; 0; record_len(width) as usize]?;
        Ok(RecordReader {
            alloc,
            name,
            side,
            width,
            count,
            next: 0,
            cut: false,
            piece,
            buffer,
        })
    }

    /// The width of the file in bytes, 1 to 32.
    pub fn width(&self) -> u8
        ensures width { result ≡ self.now.width }
        ensures sound { IsSound self.now }
    {
        self.width
    }

    /// The next record, or `End` behind the last, as often as it is asked. The shelf is to be the one that the reader was opened
    /// on, or one that tells the same file or nothing. `Cut` comes where a read below the file's length gave nothing, with the
    /// offset of the record that was being read, and then again at each call. After `Shelf` and `Memory` the reader stands
    /// where it stood. The content of the shelf stays.
    pub fn next<H: Shelf>(&mut self, shelf: &mut H) -> Result<Record, FileError>
        requires fits { Fits (H.files shelf.old) self.old }
        ensures exact { IfThere (H.files shelf.old) self.old.name (λ bytes.
            Gives result (Ok (record_answer self.old.next (records self.old.width bytes)))) }
        ensures stands { Stands self.old result self.new }
        ensures given { IfOk result (λ given. IsGiven self.old.width self.old.next given) }
        ensures end { self.old.next ≡ self.old.count → result ≡ Ok End }
        ensures cut { IsTrue self.old.cut → result ≡ Err (Cut (next_offset self.old)) }
        ensures sound { IsSound self.new }
        ensures fits { Fits (H.files shelf.new) self.new }
        ensures kept { H.files shelf.new ≡ H.files shelf.old }
        ensures cause { HasFileCause (H.faults shelf.old) (H.faults shelf.new) result }
    {
        if self.next == self.count {
            return Ok(Record::End);
        }
        let at = HEADER_LEN as u32 + record_len(self.width) * self.next;
        if self.cut {
            return Err(FileError::Cut { at });
        }
        let from = u64::from(at);
        let filled = gather(&mut self.piece, shelf, self.name, from, &mut self.buffer)?;
        if filled < self.buffer.len() {
            self.cut = true;
            return Err(FileError::Cut { at });
        }
        let record = given(self.alloc, &self.buffer, self.width, self.next)?;
        self.next += 1;
        Ok(record)
    }
}
