//! The workload, string after string.
//! Which counts are refused is the rule of a strings file: the shares of the strings are to fit a share file.

ghost use Rattle.std.specs.Prelude.{◌≡◌, ◌≤◌, ◌<◌, ◌*◌, ◌-◌, ◌^◌, length, IfOk, IfErr};
ghost use Rattle.std.specs.List.{All};
ghost use Rattle.text_strings.specs.Lines.{share_bytes, most_strings, strings, string_of, Tells};
ghost use Rattle.workload.specs.Workload.{letter, workload_string, workload_strings, workload_case};

use prefix_bits::Prefix;
use std::alloc::{AllocError, Global};
use text_strings::{LinesError, MOST_WIDTH};

/// The most bytes of a file of the shares of all the strings.
const MOST_SHARE_BYTES: u64 = 1 << 28;

/// The strings of so many reports, in order: that of report i, counted from 0, is the letter that stands j behind `a`, j being
/// the number of zero bits at the low end of i + 1, but at most 15. The letter stands twice where the width is 2 or more, and
/// once at width 1, and zero bytes follow up to `width` bytes. The width is to be 1 to `MOST_WIDTH`.
///
/// The errors: `TooMany` with the number of reports, where a file of their shares would have more than 2^28 bytes; `Memory`
/// where there was no memory for the strings.
pub fn workload(alloc: Global, reports: u32, width: u8) -> Result<Vec<Prefix>, LinesError>
    requires some { 1 ≤ width }
    requires most { width ≤ MOST_WIDTH }
    ensures value { IfOk result (λ found. workload_case width reports ≡ strings found.items) }
    ensures whole { IfOk result (λ found. All (λ string. length string ≡ 8 * width) found.items) }
    ensures count { IfOk result (λ found. length found.items ≡ reports) }
    ensures few { IfOk result (λ found. length found.items ≤ most_strings) }
    ensures error { IfErr result (λ e. Tells e (workload_case width reports)) }
{
    if share_bytes(width, reports) > MOST_SHARE_BYTES {
        return Err(LinesError::TooMany { lines: reports });
    }
    Ok(first_strings(alloc, reports, width)?)
}

/// The strings of the first lines, so many.
#[tactic(auto, using(crate::proofs::WorkloadSteps::string_steps))]
fn first_strings(alloc: Global, count: u32, width: u8) -> Result<Vec<Prefix>, AllocError>
    requires some { 1 ≤ width }
    requires most { width ≤ MOST_WIDTH }
    ensures value { IfOk result (λ found. found.items ≡ workload_strings width count) }
{
    let mut found = Vec::with_capacity(alloc, count as usize)?;
    for line in 0..count {
        found.push(string_of_line(line, width))?;
    }
    Ok(found)
}

/// The bytes of a file of the shares of so many strings: 8 at its head, and for each string 80 and 65 for each of its bits.
fn share_bytes(width: u8, count: u32) -> u64
    ensures { result ≡ share_bytes width count }
{
    8 + (80 + 520 * u64::from(width)) * u64::from(count)
}

/// The string of a line, counted from 0.
fn string_of_line(line: u32, width: u8) -> Prefix
    requires line { line < 2 ^ 32 - 1 }
    requires some { 1 ≤ width }
    requires most { width ≤ MOST_WIDTH }
    ensures { result ≡ workload_string width line }
{
    let twice = [letter(line); 2];
    if width < 2 {
        padded_string(&twice[..1], width)
    } else {
        padded_string(&twice, width)
    }
}

/// The letter of a line.
fn letter(line: u32) -> u8
    requires line { line < 2 ^ 32 - 1 }
    ensures { result ≡ letter line }
{
    b'a' + (line + 1).trailing_zeros().min(15) as u8
}

/// The string of bytes that zero bytes follow up to the width, which they are not to pass.
fn padded_string(line: &[u8], width: u8) -> Prefix
    requires most { width ≤ MOST_WIDTH }
    requires fits { length line.now ≤ width }
    ensures { result ≡ string_of width line.now }
{
    let mut padded = [0; MOST_WIDTH as usize];
    padded[..line.len()].copy_from_slice(line);
    Prefix::of_bytes(&padded[..usize::from(width)])
}
