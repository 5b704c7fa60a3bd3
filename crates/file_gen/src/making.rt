//! The two share files of the strings of a file.
//! The strings are read whole; then the pairs are made and written one after another.

ghost use Rattle.std.specs.Prelude.{◌≢◌, ◌≤◌, IfErr, OnOk};
ghost use Rattle.file_gen.specs.Answers.{HasGenCause};
ghost use Rattle.file_gen.specs.Makings.{Makes, StopsAt};

use crate::errors::{GenError, error_of};
use crate::strings::strings_of;
use pair_files::{PairSettings, write_pairs};
use shelf_io::Shelf;
use std::alloc::Global;

/// Writes the two share files of the strings of a strings file, or tells why not: `zero` gets side 0's shares and `one` side 1's, line
/// after line. All other names stay.
///
/// Where the shelf tells, the strings are those of the file (`made`), and each error but a failed shelf and want of memory is that of
/// the file; after an error the shelf is as before, or each of the two names holds a front of its share file (`stopped`). The shelf is
/// named only where its count of faults rose (`cause`). The width is to be 1 to 32, and the two names are to differ.
pub fn make_files<H: Shelf>(
    alloc: Global,
    strings: &str,
    zero: &str,
    one: &str,
    settings: &PairSettings,
    shelf: &mut H,
) -> Result<(), GenError>
    requires width { (1 ≤ settings.now.width) × (settings.now.width ≤ 32) }
    requires differ { zero.now ≢ one.now }
    ensures made { OnOk result (Makes (record { strings = strings.now; zero = zero.now; one = one.now }) settings.now
        (H.files shelf.old) (H.files shelf.new)) }
    ensures stopped { IfErr result (StopsAt (record { strings = strings.now; zero = zero.now; one = one.now }) settings.now
        (H.files shelf.old) (H.files shelf.new)) }
    ensures cause { HasGenCause (H.faults shelf.old) (H.faults shelf.new) result }
{
    let found = match strings_of(alloc, strings, settings.width, shelf) {
        Ok(found) => found,
        Err(error) => return Err(error),
    };
    match write_pairs(alloc, shelf, zero, one, settings, &found) {
        Ok(()) => Ok(()),
        Err(refused) => Err(error_of(refused)),
    }
}
