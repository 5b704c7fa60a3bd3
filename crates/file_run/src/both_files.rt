//! Both share files of a run, side 0's first, read into one collection.
//! Files of two widths do not go together.

ghost use Rattle.std.specs.Prelude.{◌≡◌, ◌≤◌, [], IfOk, IfErr, IfSome};
ghost use Rattle.std.specs.FinMap.{get};
ghost use Rattle.report_collection.specs.Collections.{shares_on, opposite};
ghost use Rattle.share_lists.specs.FileLists.{file_lists};
ghost use Rattle.file_run.specs.Beginnings.{begun};
ghost use Rattle.file_run.specs.Readings.{IsRead, SideStops, AreRead, BothStop};
ghost use Rattle.file_run.specs.Answers.{IsReadError, HasShelfCause};

use crate::errors::RunError;
use crate::side_file::{SideFile, collect_file};
use definitions::Sequence;
use prefix_bits::Side;
use report_collection::Collect;
use share_format::FileError;
use shelf_io::{Gate, Shelf};
use std::alloc::Global;
use std::sync::Wait;
use std::thread::Threads;

/// Both files of a run, which have one width.
#[derive(Drop)]
pub struct BothFiles {
    /// The width of both in bytes, 1 to 32.
    pub width: u8,
    /// The numbers of the malformed records of side 0's file, ascending, counted from 0.
    pub malformed0: Sequence<u32>,
    /// The same of side 1's.
    pub malformed1: Sequence<u32>,
    /// The shares of both, each side's up to order.
    pub collect: Collect,
}

// A side's file, whose shares are added to the side's, of which there is none yet.
fn collect_side<R: Threads + Wait + Sync, H: Shelf, G: Gate>(
    rt: &R,
    alloc: Global,
    shelf: &mut H,
    name: &str,
    side: Side,
    collect: &mut Collect,
    gate: &G,
) -> Result<SideFile, RunError>
    requires none { shares_on side collect.old ≡ [] }
    ensures read { IfOk result (λ read. IsRead (H.files shelf.old) side name.now read.width read.malformed (shares_on side collect.new)) }
    ensures stops { IfErr result (λ e. IfSome (H.files shelf.old) (λ held. SideStops side e (file_lists side (get held name.now)))) }
    ensures other { shares_on (opposite side) collect.new ≡ shares_on (opposite side) collect.old }
    ensures own { IfErr result IsReadError }
    ensures kept { H.files shelf.new ≡ H.files shelf.old }
    ensures cause { HasShelfCause (H.faults shelf.old) (H.faults shelf.new) result }
{
    match collect_file(rt, alloc, shelf, name, side, collect, gate) {
        Ok(read) => Ok(read),
        Err(error) => Err(RunError::File { side, error }),
    }
}

/// Side 0's file and side 1's, which have one width, with the shares of both collected, each side's by so many uploaders at once.
/// Side 1's file is read only where side 0's is whole. Want of memory for an empty collection is told as side 0's. It waits.
pub(crate) fn collect_both<R: Threads + Wait + Sync, H: Shelf, G: Gate>(
    rt: &R,
    alloc: Global,
    shelf: &mut H,
    zero: &str,
    one: &str,
    uploaders: u32,
    gate: &G,
) -> Result<BothFiles, RunError>
    requires uploaders { (1 ≤ uploaders) × (uploaders ≤ 64) }
    ensures read { IfOk result (λ read. AreRead (H.files shelf.old) zero.now one.now read) }
    ensures stops { IfErr result (λ e. IfSome (H.files shelf.old) (λ held. BothStop e (begun zero.now one.now held))) }
    ensures own { IfErr result IsReadError }
    ensures kept { H.files shelf.new ≡ H.files shelf.old }
    ensures cause { HasShelfCause (H.faults shelf.old) (H.faults shelf.new) result }
{
    let mut collect = match Collect::new(alloc, uploaders) {
        Ok(collect) => collect,
        Err(_) => {
            return Err(RunError::File {
                side: Side::Zero,
                error: FileError::Memory,
            });
        }
    };
    let zeros = match collect_side(rt, alloc, shelf, zero, Side::Zero, &mut collect, gate) {
        Ok(read) => read,
        Err(error) => return Err(error),
    };
    let ones = match collect_side(rt, alloc, shelf, one, Side::One, &mut collect, gate) {
        Ok(read) => read,
        Err(error) => return Err(error),
    };
    if zeros.width != ones.width {
        return Err(RunError::Widths {
            zero: zeros.width,
            one: ones.width,
        });
    }
    Ok(BothFiles {
        width: zeros.width,
        malformed0: zeros.malformed,
        malformed1: ones.malformed,
        collect,
    })
}
