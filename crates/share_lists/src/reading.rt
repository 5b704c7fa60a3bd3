//! Reading of a share file, one list of shares behind another.
//! The records are taken one after another, so that one list alone is in memory, with what the reader holds.

ghost use Rattle.std.specs.Prelude.{◌≡◌, ◌≤◌, ◌<◌, ◌+◌, [], true, false, Ok, length, IfOk, IfErr};
ghost use Rattle.shelf_io.specs.Files.{IfThere};
ghost use Rattle.share_format.specs.Readings.{Fits, IsSound};
ghost use Rattle.share_format.specs.Causes.{HasFileCause};
ghost use Rattle.share_lists.specs.Steps.{GoOn, EndSo, Went, IsLater, IsOutside};

use crate::share_part::SharePart;
use definitions::Sequence;
use idpf_eval::Share;
use share_format::{FileError, Record, RecordReader};
use shelf_io::Shelf;
use std::alloc::Global;

/// Reads the next record and adds it to the shares or to the numbers of the malformed records. Tells whether there was one.
fn add_next<H: Shelf>(
    shelf: &mut H,
    reader: &mut RecordReader<'_>,
    shares: &mut Sequence<Share>,
    malformed: &mut Sequence<u32>,
) -> Result<bool, FileError>
    requires fits { Fits (H.files shelf.old) reader.old }
    ensures so_far { IfOk result (λ more.
        GoOn (H.files shelf.old) reader.old shares.old malformed.old reader.new shares.new malformed.new) }
    ensures all { result ≡ Ok false
        → EndSo (H.files shelf.old) reader.old shares.old malformed.old reader.new shares.new malformed.new }
    ensures more { IfOk result (λ more. Went more reader.old reader.new) }
    ensures few { length shares.new ≤ length shares.old + 1 }
    ensures outside { IfThere (H.files shelf.old) reader.old.name (λ bytes. IfErr result IsOutside) }
    ensures sound { IsSound reader.new }
    ensures fits { Fits (H.files shelf.new) reader.new }
    ensures kept { H.files shelf.new ≡ H.files shelf.old }
    ensures cause { HasFileCause (H.faults shelf.old) (H.faults shelf.new) result }
{
    match reader.next(shelf)? {
        Record::Share(share) => {
            shares.push(share)?;
            Ok(true)
        }
        Record::Malformed(number) => {
            malformed.push(number)?;
            Ok(true)
        }
        Record::End => Ok(false),
    }
}

/// The next shares of a reader's file, as many as `most` says, 1 at least, or all that are left where these are fewer. The numbers
/// of the malformed records that were passed are added to `malformed`. Whatever lists the records before come to, these lists
/// with the shares behind theirs are what the records so far come to (`so_far`), and all records where no more is told (`all`).
/// A record that spells no share is no error. `Cut` comes where a read below the file's length gave nothing. `Shelf` comes where
/// the shelf failed, and `Memory` for want of memory. After an error the shares of this call are given up. The content of the
/// shelf stays.
pub fn next_list<H: Shelf>(
    alloc: Global,
    shelf: &mut H,
    reader: &mut RecordReader<'_>,
    most: usize,
    malformed: &mut Sequence<u32>,
) -> Result<SharePart, FileError>
    requires some { 1 ≤ most }
    requires fits { Fits (H.files shelf.old) reader.old }
    requires sound { IsSound reader.old }
    ensures so_far { IfOk result (λ part.
        GoOn (H.files shelf.old) reader.old [] malformed.old reader.new part.shares malformed.new) }
    ensures all { IfOk result (λ part. part.more ≡ false
        → EndSo (H.files shelf.old) reader.old [] malformed.old reader.new part.shares malformed.new) }
    ensures few { IfOk result (λ part. length part.shares ≤ most) }
    ensures later { IfOk result (λ part. IsLater reader.old reader.new) }
    ensures more { IfOk result (λ part. part.more ≡ true → reader.old.next < reader.new.next) }
    ensures outside { IfThere (H.files shelf.old) reader.old.name (λ bytes. IfErr result IsOutside) }
    ensures sound { IsSound reader.new }
    ensures fits { Fits (H.files shelf.new) reader.new }
    ensures kept { H.files shelf.new ≡ H.files shelf.old }
    ensures cause { HasFileCause (H.faults shelf.old) (H.faults shelf.new) result }
{
    let mut shares = Sequence::new(alloc);
    while shares.len() < most {
        if !add_next(shelf, reader, &mut shares, malformed)? {
            return Ok(SharePart {
                shares,
                more: false,
            });
        }
    }
    Ok(SharePart { shares, more: true })
}
