//! The texts of an answer: what out gets of it, and on err the line of the walk's end.
//! `find` prints the strings, `make` how many there are.

ghost use Rattle.std.specs.Prelude.{◌≡◌, ◌≤◌, ◌*◌, length, IfOk};
ghost use Rattle.std.specs.String.{string_bytes};
ghost use Rattle.std.specs.List.{All, sum_by};
ghost use Rattle.answer_text.specs.AnswerText.{sealed_line};
ghost use Rattle.file_find.specs.Texts.{summary_text, text_of};

use answer_text::{answer_text, sealed_line};
use file_run::RunTexts;
use frontier_walk::Heavy;
use pair_run::Answer;
use std::alloc::{AllocError, Global};

/// What out gets of an answer.
#[derive(Clone, Copy, Debug, PartialEq, Eq)]
pub(crate) enum OutText {
    /// A line for each frequent string.
    Strings,
    /// How many frequent strings there are, and the sum of their counts.
    Summary,
}

/// The sum of the counts of strings.
fn sum_of_counts(heavy: &[Heavy]) -> u128
    ensures { result ≡ sum_by (λ h. h.count) heavy.now }
{
    let mut sum: u128 = 0;
    for string in heavy {
        sum += u128::from(string.count.number());
    }
    sum
}

/// How many strings there are and the sum of their counts, in one line. `AllocError` is want of memory for it.
fn summary_text(alloc: Global, heavy: &[Heavy]) -> Result<String, AllocError>
    ensures text { IfOk result (λ text. string_bytes text ≡ summary_text heavy.now) }
{
    let count = heavy.len();
    let sum = sum_of_counts(heavy);
    format!(in alloc; "heavy {count} sum {sum}\n")
}

/// What out gets of the strings of an answer, each of `width` bytes. `AllocError` is want of memory for it.
fn out_text(alloc: Global, heavy: &[Heavy], width: u8, out: OutText) -> Result<Vec<u8>, AllocError>
    requires width { (1 ≤ width) × (width ≤ 32) }
    requires strings { All (λ h. length h.prefix ≡ 8 * width) heavy.now }
    ensures text { IfOk result (λ text. text.items ≡ text_of out heavy.now) }
{
    match out {
        OutText::Strings => answer_text(alloc, heavy, width),
        OutText::Summary => Ok(summary_text(alloc, heavy)?.into_bytes()),
    }
}

/// The texts of an answer over strings of a width in bytes. `AllocError` is want of memory for them.
pub(crate) fn texts_of(
    alloc: Global,
    width: u8,
    answer: &Answer,
    out: OutText,
) -> Result<RunTexts, AllocError>
    requires width { (1 ≤ width) × (width ≤ 32) }
    requires strings { All (λ h. length h.prefix ≡ 8 * width) answer.now.heavy }
    ensures out { IfOk result (λ texts. texts.out.items ≡ text_of out answer.now.heavy) }
    ensures err { IfOk result (λ texts. texts.err.items ≡ sealed_line answer.now.sealed answer.now.passed answer.now.levels) }
{
    let out = out_text(alloc, answer.heavy.as_slice(), width, out)?;
    let end = sealed_line(alloc, answer.sealed, answer.passed, answer.levels)?;
    Ok(RunTexts {
        out,
        err: end.into_bytes(),
    })
}
