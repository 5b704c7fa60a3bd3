//! Why a command that has settings is refused, with the status and the line of each refusal.
//! The tables of both stand in specs/Refusals.antt.

ghost use Rattle.std.specs.Prelude.{◌≡◌, IfOk};
ghost use Rattle.std.specs.String.{string_bytes};
ghost use Rattle.definitions.specs.Sides.{side_number};
ghost use Rattle.poplar_top.specs.Refusals.{status_of, line_of};

use crate::walk_refusal::{self, WalkRefusal};
use prefix_bits::Side;
use std::alloc::{AllocError, Global};

/// Why there is no answer.
#[derive(Clone, Copy, Debug, PartialEq, Eq)]
pub enum Refusal {
    /// The side's share file is not there.
    Missing {
        /// The side of the file.
        side: Side,
    },
    /// The side's share file has more than 2^28 bytes.
    TooLong {
        /// The side of the file.
        side: Side,
    },
    /// A byte of the header is wrong or missing.
    Header {
        /// The side of the file.
        side: Side,
        /// The first such byte, counted from 0.
        at: u32,
    },
    /// The last record is not whole.
    Cut {
        /// The side of the file.
        side: Side,
        /// The byte at which that record begins, counted from 0.
        at: u32,
    },
    /// The prefix has more bits than the strings of the file.
    LongPrefix {
        /// The number of bits of the prefix.
        bits: u16,
        /// The width of the strings, in bytes.
        width: u8,
    },
    /// The strings file is not there.
    NoStrings,
    /// The strings file has more than 2^28 bytes.
    StringsLong,
    /// The shares of so many strings do not fit a share file.
    TooMany {
        /// The number of lines.
        lines: u32,
    },
    /// A line has more bytes than the width.
    LineLong {
        /// The first line at fault, counted from 0.
        line: u32,
    },
    /// A line has a zero byte.
    ZeroByte {
        /// The first line at fault, counted from 0.
        line: u32,
    },
    /// The two share files have strings of different widths.
    Widths {
        /// The width of side 0's strings, in bytes.
        zero: u8,
        /// The width of side 1's strings, in bytes.
        one: u8,
    },
    /// The walk over the two share files ended without an answer.
    Walk(WalkRefusal),
}

/// A side's number.
pub(crate) fn number(side: Side) -> u8
    ensures value { result ≡ side_number side }
{
    match side {
        Side::Zero => 0,
        Side::One => 1,
    }
}

/// The status of a refusal.
pub(crate) fn status(refusal: Refusal) -> u8
    ensures value { result ≡ status_of refusal }
{
    match refusal {
        Refusal::Missing { .. }
        | Refusal::TooLong { .. }
        | Refusal::Header { .. }
        | Refusal::Cut { .. } => 3,
        Refusal::LongPrefix { .. } | Refusal::Widths { .. } => 4,
        Refusal::NoStrings
        | Refusal::StringsLong
        | Refusal::TooMany { .. }
        | Refusal::LineLong { .. }
        | Refusal::ZeroByte { .. } => 11,
        Refusal::Walk(why) => walk_refusal::status(why),
    }
}

/// The line of a refusal, ended by a line feed. `AllocError` is want of memory for it.
pub(crate) fn line(alloc: Global, refusal: Refusal) -> Result<String, AllocError>
    ensures value { IfOk result (λ line. string_bytes line ≡ line_of refusal) }
{
    match refusal {
        Refusal::Missing { side } => {
            let number = number(side);
            format!(in alloc; "share file {number}: not there\n")
        }
        Refusal::TooLong { side } => {
            let number = number(side);
            format!(in alloc; "share file {number}: too long\n")
        }
        Refusal::Header { side, at } => {
            let number = number(side);
            format!(in alloc; "share file {number}: header wrong at byte {at}\n")
        }
        Refusal::Cut { side, at } => {
            let number = number(side);
            format!(in alloc; "share file {number}: cut at byte {at}\n")
        }
        Refusal::LongPrefix { bits, width } => {
            format!(in alloc; "prefix of {bits} bits is longer than width {width}\n")
        }
        Refusal::NoStrings => "strings: not there\n".to_owned(alloc),
        Refusal::StringsLong => "strings: file too long\n".to_owned(alloc),
        Refusal::TooMany { lines } => format!(in alloc; "strings: {lines} lines are too many\n"),
        Refusal::LineLong { line } => format!(in alloc; "strings: line {line} is too long\n"),
        Refusal::ZeroByte { line } => format!(in alloc; "strings: line {line} has a zero byte\n"),
        Refusal::Widths { zero, one } => format!(in alloc; "widths differ: {zero} and {one}\n"),
        Refusal::Walk(why) => walk_refusal::line(alloc, why),
    }
}
