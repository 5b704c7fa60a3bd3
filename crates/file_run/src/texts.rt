//! The texts of a run that came to an answer.
//! Out has the frequent strings; err has the malformed records, and how the walk ended.

ghost use Rattle.std.specs.Prelude.{◌≡◌, ◌*◌, ◌++◌, ◌≤◌, length, IfOk};
ghost use Rattle.std.specs.List.{All};
ghost use Rattle.definitions.specs.declared.Side.TheVariants.{Zero, One};
ghost use Rattle.answer_text.specs.AnswerText.{answer_text, sealed_line};
ghost use Rattle.answer_text.specs.RefusedText.{refused_text};

use answer_text::{answer_text, refused_text, sealed_line};
use pair_run::Answer;
use prefix_bits::Side;
use std::alloc::{AllocError, Global};

/// The texts of a run.
#[derive(Debug, Drop)]
pub struct RunTexts {
    /// For out: a line for each frequent string, ascending.
    pub out: Vec<u8>,
    /// For err: a line for each malformed record, side 0's first, and how the walk ended.
    pub err: Vec<u8>,
}

/// The texts of an answer over strings of a width in bytes, with the numbers of each side's malformed records. `AllocError` is want
/// of memory for them.
pub(crate) fn texts_of(
    alloc: Global,
    width: u8,
    malformed0: &[u32],
    malformed1: &[u32],
    answer: &Answer,
) -> Result<RunTexts, AllocError>
    requires width { (1 ≤ width) × (width ≤ 32) }
    requires strings { All (λ h. length h.prefix ≡ 8 * width) answer.now.heavy }
    ensures out { IfOk result (λ texts. texts.out.items ≡ answer_text answer.now.heavy) }
    ensures err { IfOk result (λ texts. texts.err.items
        ≡ (refused_text Zero malformed0.now ++ refused_text One malformed1.now) ++ sealed_line answer.now.sealed answer.now.passed answer.now.levels) }
{
    let out = answer_text(alloc, answer.heavy.as_slice(), width)?;
    let mut err = refused_text(alloc, Side::Zero, malformed0)?;
    let more = refused_text(alloc, Side::One, malformed1)?;
    err.extend_from_slice(&more)?;
    let end = sealed_line(alloc, answer.sealed, answer.passed, answer.levels)?;
    err.extend_from_slice(end.as_bytes())?;
    Ok(RunTexts { out, err })
}
