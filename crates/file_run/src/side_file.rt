//! One side's share file, read into a collection list by list.
//! So the shares of the file stand in memory once, in the side's intake, with one list of them.

ghost use Rattle.std.specs.Prelude.{◌≡◌, ◌<◌, [], true, Ok, Err, IfOk, IfErr, IfSome};
ghost use Rattle.std.specs.FinMap.{get};
ghost use Rattle.shelf_io.specs.Files.{IfThere};
ghost use Rattle.share_format.specs.Causes.{Gives, HasFileCause};
ghost use Rattle.share_format.specs.Readings.{Fits, IsSound};
ghost use Rattle.share_lists.specs.FileLists.{file_lists};
ghost use Rattle.share_lists.specs.Steps.{IsLater, IsOutside};
ghost use Rattle.report_collection.specs.Collections.{shares_on, opposite};
ghost use Rattle.file_run.specs.Readings.{Gathered, IsRead};

use definitions::Sequence;
use prefix_bits::Side;
use report_collection::Collect;
use share_format::{FileError, RecordReader};
use share_lists::next_list;
use shelf_io::{Gate, Shelf};
use std::alloc::Global;
use std::sync::Wait;
use std::thread::Threads;

/// The most shares of a list.
const LIST_LEN: usize = 1024;

/// What a side's file has beside its shares.
#[derive(Drop)]
pub struct SideFile {
    /// Its width in bytes, 1 to 32.
    pub width: u8,
    /// The numbers of its malformed records, ascending, counted from 0.
    pub malformed: Sequence<u32>,
}

/// Reads the next list of shares and adds it to the side's. Tells whether there may be more.
fn collect_next<R: Threads + Wait + Sync, H: Shelf, G: Gate>(
    rt: &R,
    alloc: Global,
    shelf: &mut H,
    reader: &mut RecordReader<'_>,
    side: Side,
    malformed: &mut Sequence<u32>,
    collect: &mut Collect,
    gate: &G,
) -> Result<bool, FileError>
    requires fits { Fits (H.files shelf.old) reader.old }
    requires sound { IsSound reader.old }
    requires so_far { Gathered (H.files shelf.old) reader.old true malformed.old (shares_on side collect.old) }
    ensures so_far { IfOk result (λ more. Gathered (H.files shelf.old) reader.new more malformed.new (shares_on side collect.new)) }
    ensures other { shares_on (opposite side) collect.new ≡ shares_on (opposite side) collect.old }
    ensures later { IfOk result (λ more. IsLater reader.old reader.new) }
    ensures more { result ≡ Ok true → reader.old.next < reader.new.next }
    ensures outside { IfThere (H.files shelf.old) reader.old.name (λ bytes. IfErr result IsOutside) }
    ensures sound { IsSound reader.new }
    ensures fits { Fits (H.files shelf.new) reader.new }
    ensures kept { H.files shelf.new ≡ H.files shelf.old }
    ensures cause { HasFileCause (H.faults shelf.old) (H.faults shelf.new) result }
{
    let part = next_list(alloc, shelf, reader, LIST_LEN, malformed)?;
    collect.add(rt, side, part.shares.into_vec(), gate)?;
    Ok(part.more)
}

/// Reads the file of this name, which is to be one of this side, and adds its shares to the side's, of which there is none yet, in
/// lists of at most 1,024. The errors are those of `RecordReader`; `Memory` comes also for want of memory in the collection. After an
/// error some of the shares were added. The content of the shelf stays. It waits.
pub(crate) fn collect_file<R: Threads + Wait + Sync, H: Shelf, G: Gate>(
    rt: &R,
    alloc: Global,
    shelf: &mut H,
    name: &str,
    side: Side,
    collect: &mut Collect,
    gate: &G,
) -> Result<SideFile, FileError>
    requires none { shares_on side collect.old ≡ [] }
    ensures read { IfOk result (λ read. IsRead (H.files shelf.old) side name.now read.width read.malformed (shares_on side collect.new)) }
    ensures stops { IfErr result (λ e. IfSome (H.files shelf.old) (λ held. Gives (Err e) (file_lists side (get held name.now)))) }
    ensures other { shares_on (opposite side) collect.new ≡ shares_on (opposite side) collect.old }
    ensures kept { H.files shelf.new ≡ H.files shelf.old }
    ensures cause { HasFileCause (H.faults shelf.old) (H.faults shelf.new) result }
{
    let mut reader = RecordReader::open(alloc, shelf, name, side)?;
    let mut malformed = Sequence::new(alloc);
    while collect_next(
        rt,
        alloc,
        shelf,
        &mut reader,
        side,
        &mut malformed,
        collect,
        gate,
    )? {}
    Ok(SideFile {
        width: reader.width(),
        malformed,
    })
}
