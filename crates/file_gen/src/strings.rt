//! The strings of a strings file, read whole.
//! The causes come in this order: the file, its length, its lines.

ghost use Rattle.std.specs.Prelude.{◌≡◌, ◌≤◌, ◌*◌, ◌^◌, ◌<◌, Some, Ok, length, IfOk, IfErr, IfSome};
ghost use Rattle.std.specs.List.{All};
ghost use Rattle.std.specs.FinMap.{get};
ghost use Rattle.text_strings.specs.Lines.{strings, lines_case, most_strings};
ghost use Rattle.file_gen.specs.Answers.{strings_answer, Fits, HasGenCause};
ghost use Rattle.file_gen.specs.Readings.{FitsFile, FitsLines};

use crate::errors::{GenError, error_of};
use prefix_bits::Prefix;
use shelf_io::{Shelf, read_whole};
use std::alloc::Global;
use text_strings::read_lines;

/// The most bytes of a strings file.
const MOST_BYTES: u64 = 1 << 28;

/// The strings of the bytes of a strings file.
#[tactic(auto, using(crate::proofs::StringSteps::line_steps))]
fn strings_in(alloc: Global, bytes: &[u8], width: u8) -> Result<Vec<Prefix>, GenError>
    requires width { (1 ≤ width) × (width ≤ 32) }
    requires most { length bytes.now ≤ 2 ^ 28 }
    ensures value { IfOk result (λ found. lines_case width bytes.now ≡ strings found.items) }
    ensures whole { IfOk result (λ found. All (λ string. length string ≡ 8 * width) found.items) }
    ensures few { IfOk result (λ found. length found.items ≤ most_strings) }
    ensures refused { IfErr result (λ e. FitsLines (lines_case width bytes.now) e) }
{
    match read_lines(alloc, bytes, width) {
        Ok(found) => Ok(found),
        Err(error) => Err(GenError::Lines(error)),
    }
}

/// All bytes of the strings file, or why they are not read.
#[tactic(auto, using(crate::proofs::StringSteps::byte_steps))]
fn whole_file<H: Shelf>(alloc: Global, shelf: &mut H, name: &str) -> Result<Vec<u8>, GenError>
    ensures bytes { IfSome (H.files shelf.old) (λ held. IfOk result (λ bytes. get held name.now ≡ Some bytes.items)) }
    ensures most { IfOk result (λ bytes. length bytes.items ≤ 2 ^ 28) }
    ensures refused { IfSome (H.files shelf.old) (λ held. IfErr result (λ e. FitsFile (get held name.now) e)) }
    ensures cause { HasGenCause (H.faults shelf.old) (H.faults shelf.new) result }
    ensures kept { H.files shelf.new ≡ H.files shelf.old }
{
    let size = match shelf.length(name) {
        Ok(Some(size)) => size,
        Ok(None) => return Err(GenError::Missing),
        Err(refused) => return Err(error_of(refused)),
    };
    if size > MOST_BYTES {
        return Err(GenError::TooLong);
    }
    let Ok(mut bytes) = vec![in alloc; 0; size as usize] else {
        return Err(GenError::Memory);
    };
    match read_whole(shelf, name, &mut bytes) {
        Ok(filled) => {
            bytes.truncate(filled);
            Ok(bytes)
        }
        Err(refused) => Err(error_of(refused)),
    }
}

/// The strings of the strings file of a name, each padded to the width in bytes, 1 to 32, in the lines' order; or why there are none,
/// with the causes in their order: the file, its length, its lines. A failed shelf and want of memory may come before. The shelf
/// holds what it held.
#[tactic(auto, using(crate::proofs::StringSteps::string_steps))]
pub fn strings_of<H: Shelf>(
    alloc: Global,
    name: &str,
    width: u8,
    shelf: &mut H,
) -> Result<Vec<Prefix>, GenError>
    requires width { (1 ≤ width) × (width ≤ 32) }
    ensures value { IfSome (H.files shelf.old) (λ held. IfOk result (λ found. strings_answer width (get held name.now) ≡ Ok found.items)) }
    ensures whole { IfOk result (λ found. All (λ string. length string ≡ 8 * width) found.items) }
    ensures few { IfOk result (λ found. length found.items ≤ most_strings) }
    ensures refused { IfSome (H.files shelf.old) (λ held. IfErr result (λ e. Fits (strings_answer width (get held name.now)) e)) }
    ensures cause { HasGenCause (H.faults shelf.old) (H.faults shelf.new) result }
    ensures kept { H.files shelf.new ≡ H.files shelf.old }
{
    let bytes = match whole_file(alloc, shelf, name) {
        Ok(bytes) => bytes,
        Err(error) => return Err(error),
    };
    strings_in(alloc, &bytes, width)
}
