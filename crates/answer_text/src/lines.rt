//! The line of a heavy string, and the line of a walk's end, each with its line feed.
//! Numbers are in decimal.

ghost use Rattle.std.specs.Prelude.{◌≡◌, ◌≤◌, ◌*◌, IfOk, length};
ghost use Rattle.std.specs.String.{string_bytes};
ghost use Rattle.prefix_bits.specs.declared.TheConstants.{MOST_BITS};
ghost use Rattle.answer_text.specs.AnswerText.{heavy_line, sealed_line};

use frontier_walk::Heavy;
use std::alloc::{AllocError, Global};
use text_strings::{MOST_WIDTH, shown};

/// The line of a heavy string of `width` bytes: its count, a tab and the string as it is shown. `AllocError` is want of
/// memory for the line.
pub(crate) fn heavy_line(alloc: Global, heavy: &Heavy, width: u8) -> Result<String, AllocError>
    requires most { 8 * width ≤ MOST_BITS }
    requires whole { length heavy.now.prefix ≡ 8 * width }
    ensures line { IfOk result (λ line. string_bytes line ≡ heavy_line heavy.now) }
{
    let mut room = [0; MOST_WIDTH as usize];
    let bytes = &mut room[..usize::from(width)];
    heavy.prefix.to_bytes(bytes);
    let count = heavy.count.number();
    let string = shown(alloc, bytes)?;
    format!(in alloc; "{count}\t{string}\n")
}

/// The line of a walk's end: how many reports the batch had, how many of them passed the last level that was walked, and
/// how many levels were walked. `AllocError` is want of memory for the line.
pub fn sealed_line(
    alloc: Global,
    sealed: u32,
    passed: u32,
    levels: u16,
) -> Result<String, AllocError>
    ensures line { IfOk result (λ line. string_bytes line ≡ sealed_line sealed passed levels) }
{
    format!(in alloc; "sealed {sealed} passed {passed} levels {levels}\n")
}
