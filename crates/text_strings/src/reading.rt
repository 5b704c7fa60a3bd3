//! The strings of the lines of a file: each line padded with zero bytes to a width.
//! What a line is, and which files are refused, is the project's own rule.

ghost use Rattle.std.specs.Prelude.{◌≡◌, ◌<◌, ◌≤◌, ◌+◌, ◌*◌, ◌^◌, None, length, map, MatchOption, MatchResult, IfOk, IfErr};
ghost use Rattle.std.specs.List.{All};
ghost use Rattle.text_strings.specs.Lines.{lines_of, string_of, share_bytes, first_fault, lines_case, strings, most_strings, Tells};

use crate::cuts::first_line;
use crate::lines_error::LinesError;
use prefix_bits::{MOST_BITS, Prefix};
use std::alloc::{AllocError, Global};

/// The most bytes of a string: those of the longest prefix.
pub const MOST_WIDTH: u8 = (MOST_BITS / 8) as u8;

/// The most bytes of a file of the shares of all the strings.
const MOST_SHARE_BYTES: u64 = 1 << 28;

/// The strings of the lines of the bytes, in order. Every line feed ends a line; what follows the last one is a line too,
/// unless it is empty. A carriage return is part of its line. A string is its line filled up with zero bytes to `width`
/// bytes, so it has 8 * `width` bits. The width is to be 1 to `MOST_WIDTH`, and there are to be fewer than 2^31 bytes.
///
/// The errors come in this order: `TooMany` with the number of lines, where a file of their shares would have more than
/// 2^28 bytes; `LineLong` and `ZeroByte` for the first line at fault; `Memory` where there was no memory for the strings.
pub fn read_lines(alloc: Global, bytes: &[u8], width: u8) -> Result<Vec<Prefix>, LinesError>
    requires some { 1 ≤ width }
    requires most { width ≤ MOST_WIDTH }
    requires fits { length bytes.now < 2 ^ 31 }
    ensures value { IfOk result (λ found. lines_case width bytes.now ≡ strings found.items) }
    ensures whole { IfOk result (λ found. All (λ string. length string ≡ 8 * width) found.items) }
    ensures few { IfOk result (λ found. length found.items ≤ most_strings) }
    ensures error { IfErr result (λ e. Tells e (lines_case width bytes.now)) }
{
    let lines = count_lines(bytes);
    if share_bytes(width, lines) > MOST_SHARE_BYTES {
        return Err(LinesError::TooMany { lines });
    }
    check_lines(bytes, width)?;
    Ok(strings_of(alloc, bytes, width)?)
}

/// The bytes of a file of the shares of so many strings: 8 at its head, and for each string 80 and 65 for each of its bits.
fn share_bytes(width: u8, count: u32) -> u64
    ensures { result ≡ share_bytes width count }
{
    8 + (80 + 520 * u64::from(width)) * u64::from(count)
}

/// The number of lines.
#[tactic(auto, using(crate::proofs::LineSteps::line_steps))]
fn count_lines(bytes: &[u8]) -> u32
    requires { length bytes.now < 2 ^ 31 }
    ensures { result ≡ length (lines_of bytes.now) }
{
    let mut count = 0;
    let mut rest = bytes;
    while !rest.is_empty() {
        let (_, after) = first_line(rest);
        count += 1;
        rest = after;
    }
    count
}

/// Whether each line is good, or else the error of the first line at fault.
#[tactic(auto, using(crate::proofs::LineSteps::line_steps))]
fn check_lines(bytes: &[u8], width: u8) -> Result<(), LinesError>
    requires { length bytes.now < 2 ^ 31 }
    ensures { let fault = first_fault width 0 (lines_of bytes.now) in
        MatchResult result (λ _. fault ≡ None) (λ e. MatchOption fault ⊥ (Tells e)) }
{
    let mut line = 0;
    let mut rest = bytes;
    while !rest.is_empty() {
        let (front, after) = first_line(rest);
        if front.len() > usize::from(width) {
            return Err(LinesError::LineLong { line });
        }
        if front.contains(&0) {
            return Err(LinesError::ZeroByte { line });
        }
        line += 1;
        rest = after;
    }
    Ok(())
}

/// The strings of the lines, none of which is to be at fault.
#[tactic(auto, using(crate::proofs::LineSteps::line_steps))]
fn strings_of(alloc: Global, bytes: &[u8], width: u8) -> Result<Vec<Prefix>, AllocError>
    requires most { width ≤ MOST_WIDTH }
    requires good { first_fault width 0 (lines_of bytes.now) ≡ None }
    ensures { IfOk result (λ found. found.items ≡ map (string_of width) (lines_of bytes.now)) }
{
    let mut found = Vec::new(alloc);
    let mut rest = bytes;
    while !rest.is_empty() {
        let (line, after) = first_line(rest);
        found.push(string_of(line, width))?;
        rest = after;
    }
    Ok(found)
}

/// The string of a line, which is not to be longer than the width.
fn string_of(line: &[u8], width: u8) -> Prefix
    requires most { width ≤ MOST_WIDTH }
    requires fits { length line.now ≤ width }
    ensures { result ≡ string_of width line.now }
{
    let mut padded = [0; MOST_WIDTH as usize];
    padded[..line.len()].copy_from_slice(line);
    Prefix::of_bytes(&padded[..usize::from(width)])
}
