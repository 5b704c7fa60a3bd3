//! The text of an answer: a line for each heavy string, made in memory.
//! Its spelling stands in specs/AnswerText.antt.

ghost use Rattle.std.specs.Prelude.{◌≡◌, ◌≤◌, ◌*◌, IfOk, length};
ghost use Rattle.std.specs.List.{All};
ghost use Rattle.prefix_bits.specs.declared.TheConstants.{MOST_BITS};
ghost use Rattle.answer_text.specs.AnswerText.{answer_text};

use crate::lines::heavy_line;
use frontier_walk::Heavy;
use std::alloc::{AllocError, Global};

/// The text of heavy strings of `width` bytes, in their order: for each its count in decimal, a tab, the string as
/// `text_strings::shown` shows it, and a line feed. No string gives no byte. The width is to be such that
/// 8 * `width` is at most `MOST_BITS`, and each string is to have 8 * `width` bits. `AllocError` is want of memory for
/// the text or for one of its lines.
#[tactic(auto, unfolding(crate::specs::AnswerText::answer_text))]
pub fn answer_text(alloc: Global, heavy: &[Heavy], width: u8) -> Result<Vec<u8>, AllocError>
    requires most { 8 * width ≤ MOST_BITS }
    requires whole { All (λ string. length string.prefix ≡ 8 * width) heavy.now }
    ensures text { IfOk result (λ text. text.items ≡ answer_text heavy.now) }
{
    let mut text = Vec::new(alloc);
    for string in heavy {
        let line = heavy_line(alloc, string, width)?;
        text.extend_from_slice(line.as_bytes())?;
    }
    Ok(text)
}
