//! The value of each report of a share file at a prefix, as texts in memory.
//! The records are read one after another; a text is given only where the whole answer is there.

ghost use Rattle.std.specs.Prelude.{◌≡◌, ◌≤◌, ◌*◌, ◌++◌, ◌<◌, length, slice_get, IfOk, IfErr, IfSome, OnOk};
ghost use Rattle.std.specs.FinMap.{get};
ghost use Rattle.shelf_io.specs.Faults.{Rose};
ghost use Rattle.shelf_io.specs.Files.{IfThere};
ghost use Rattle.share_format.specs.ShareFile.{records};
ghost use Rattle.share_format.specs.Readings.{Fits};
ghost use Rattle.share_format.specs.Answers.{record_answer};
ghost use Rattle.file_eval.specs.Answers.{eval_answer, Gives, IsFault, HasEvalCause};
ghost use Rattle.file_eval.specs.Readers.{is_more, Went};
ghost use Rattle.file_eval.specs.ValueLines.{value_lines, refused_lines, given_value, given_refusal, IsShort};

use crate::errors::EvalError;
use crate::lines::value_text;
use crate::texts::EvalTexts;
use answer_text::refused_line;
use prefix_bits::{Prefix, Side};
use share_format::{Record, RecordReader};
use shelf_io::Shelf;
use std::alloc::{AllocError, Global};

/// Adds to the texts what a reader gave.
fn add_given(
    alloc: Global,
    given: &Record,
    side: Side,
    prefix: &Prefix,
    written: &mut EvalTexts,
) -> Result<(), AllocError>
    requires bits { IsShort prefix.now given.now }
    ensures out { OnOk result (written.new.out.items ≡ written.old.out.items ++ given_value side prefix.now given.now) }
    ensures err { OnOk result (written.new.err.items ≡ written.old.err.items ++ given_refusal side given.now) }
{
    match given {
        Record::Share(share) => {
            let line = value_text(alloc, share, side, prefix)?;
            written.out.extend_from_slice(line.as_bytes())
        }
        Record::Malformed(place) => {
            let line = refused_line(alloc, side, *place)?;
            written.err.extend_from_slice(line.as_bytes())
        }
        Record::End => Ok(()),
    }
}

/// Reads the next record and adds it to the texts. Tells whether there was one.
#[tactic(auto, using(crate::proofs::ReaderSteps::reader_steps))]
fn add_next<H: Shelf>(
    alloc: Global,
    shelf: &mut H,
    reader: &mut RecordReader<'_>,
    side: Side,
    prefix: &Prefix,
    written: &mut EvalTexts,
) -> Result<bool, EvalError>
    requires fits { Fits (H.files shelf.old) reader.old }
    requires bits { length prefix.now ≤ 8 * reader.old.width }
    ensures out { IfThere (H.files shelf.old) reader.old.name (λ bytes. IfOk result (λ more. written.new.out.items
        ≡ written.old.out.items ++ given_value side prefix.now (record_answer reader.old.next (records reader.old.width bytes)))) }
    ensures err { IfThere (H.files shelf.old) reader.old.name (λ bytes. IfOk result (λ more. written.new.err.items
        ≡ written.old.err.items ++ given_refusal side (record_answer reader.old.next (records reader.old.width bytes)))) }
    ensures more { IfOk result (λ more. Went more reader.old reader.new) }
    ensures stop { IfThere (H.files shelf.old) reader.old.name (λ bytes. IfErr result IsFault) }
    ensures fits { Fits (H.files shelf.new) reader.new }
    ensures cause { HasEvalCause (H.faults shelf.old) (H.faults shelf.new) result }
    ensures kept { H.files shelf.new ≡ H.files shelf.old }
{
    let given = match reader.next(shelf) {
        Ok(given) => given,
        Err(error) => return Err(EvalError::File(error)),
    };
    if let Err(_) = add_given(alloc, &given, side, prefix, written) {
        return Err(EvalError::Memory);
    }
    Ok(is_more(&given))
}

/// Whether a reader gave a record.
fn is_more(given: &Record) -> bool
    ensures value { result ≡ is_more given.now }
{
    match given {
        Record::Share(_) | Record::Malformed(_) => true,
        Record::End => false,
    }
}

/// The texts of all records, from a reader that stands before the first.
#[tactic(auto, using(crate::proofs::EvalSteps::text_steps))]
fn all_texts<H: Shelf>(
    alloc: Global,
    shelf: &mut H,
    reader: &mut RecordReader<'_>,
    side: Side,
    prefix: &Prefix,
) -> Result<EvalTexts, EvalError>
    requires fits { Fits (H.files shelf.old) reader.old }
    requires first { reader.old.next ≡ 0 }
    requires bits { length prefix.now ≤ 8 * reader.old.width }
    ensures out { IfThere (H.files shelf.old) reader.old.name (λ bytes. IfOk result (λ written. written.out.items
        ≡ value_lines side prefix.now (records reader.old.width bytes))) }
    ensures err { IfThere (H.files shelf.old) reader.old.name (λ bytes. IfOk result (λ written. written.err.items
        ≡ refused_lines side (records reader.old.width bytes))) }
    ensures stop { IfThere (H.files shelf.old) reader.old.name (λ bytes. IfErr result IsFault) }
    ensures cause { HasEvalCause (H.faults shelf.old) (H.faults shelf.new) result }
    ensures kept { H.files shelf.new ≡ H.files shelf.old }
{
    let mut written = EvalTexts {
        out: Vec::new(alloc),
        err: Vec::new(alloc),
    };
    while add_next(alloc, shelf, reader, side, prefix, &mut written)? {}
    Ok(written)
}

/// The texts of the values of a side's share file at a prefix, or why there are none, with the causes in their order: the file, the
/// length of the prefix, the records.
///
/// On a told shelf the texts, and each error but a failed shelf and want of memory, are those of what the file holds (`exact`). The shelf
/// is named only where its count of faults rose (`cause`). The content of the shelf stays (`kept`).
#[tactic(auto, using(crate::proofs::ReaderSteps::reader_steps))]
pub fn eval_texts<H: Shelf>(
    alloc: Global,
    side: Side,
    prefix: &Prefix,
    name: &str,
    shelf: &mut H,
) -> Result<EvalTexts, EvalError>
    ensures exact { IfSome (H.files shelf.old) (λ held. Gives result (eval_answer side prefix.now (get held name.now))) }
    ensures cause { HasEvalCause (H.faults shelf.old) (H.faults shelf.new) result }
    ensures kept { H.files shelf.new ≡ H.files shelf.old }
{
    let mut reader = match RecordReader::open(alloc, shelf, name, side) {
        Ok(reader) => reader,
        Err(error) => return Err(EvalError::File(error)),
    };
    let width = reader.width();
    if prefix.len() > 8 * u16::from(width) {
        return Err(EvalError::LongPrefix {
            bits: prefix.len(),
            width,
        });
    }
    all_texts(alloc, shelf, &mut reader, side, prefix)
}
