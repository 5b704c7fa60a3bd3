//! The lines of malformed records, each with its line feed.
//! A record is named by its side and its number in the file.

ghost use Rattle.std.specs.Prelude.{◌≡◌, IfOk};
ghost use Rattle.std.specs.String.{string_bytes};
ghost use Rattle.definitions.specs.Sides.{side_number};
ghost use Rattle.answer_text.specs.RefusedText.{refused_line, refused_text};

use definitions::Side;
use std::alloc::{AllocError, Global};

/// A side's number.
fn number_of(side: Side) -> u8
    ensures value { result ≡ side_number side }
{
    match side {
        Side::Zero => 0,
        Side::One => 1,
    }
}

/// The line of a malformed record of a side's file, by its number, counted from 0. `AllocError` is want of memory for the line.
pub fn refused_line(alloc: Global, side: Side, number: u32) -> Result<String, AllocError>
    ensures line { IfOk result (λ line. string_bytes line ≡ refused_line side number) }
{
    let side = number_of(side);
    format!(in alloc; "refused side {side} record {number}\n")
}

/// A line for each of the numbers of a side's malformed records, in their order. `AllocError` is want of memory for the text or for
/// one of its lines.
#[tactic(auto, unfolding(crate::specs::RefusedText::refused_text))]
pub fn refused_text(alloc: Global, side: Side, numbers: &[u32]) -> Result<Vec<u8>, AllocError>
    ensures text { IfOk result (λ text. text.items ≡ refused_text side numbers.now) }
{
    let mut text = Vec::new(alloc);
    for number in numbers {
        let line = refused_line(alloc, side, *number)?;
        text.extend_from_slice(line.as_bytes())?;
    }
    Ok(text)
}
