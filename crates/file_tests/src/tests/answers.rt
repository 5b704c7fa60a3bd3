//! The texts of the project's worked commands, byte for byte: strings with their counts, strings that are shown by their
//! digits, no string, malformed records, and the line of a walk's end.

ghost use Rattle.std.specs.Prelude.{◌≡◌, ◌≤◌, ◌*◌, length};
ghost use Rattle.prefix_bits.specs.Bits.{bits_of_bytes};
ghost use Rattle.prefix_bits.specs.declared.TheConstants.{MOST_BITS};

use answer_text::{answer_text, refused_line, refused_text, sealed_line};
use definitions::Side;
use field64::Fe;
use frontier_walk::Heavy;
use prefix_bits::Prefix;
use std::alloc::AllocError;

// The string of bytes with its count.
fn counted(count: u64, bytes: &[u8]) -> Heavy
    requires { 8 * length bytes.now ≤ MOST_BITS }
    ensures { result.prefix ≡ bits_of_bytes bytes.now }
{
    Heavy {
        prefix: Prefix::of_bytes(bytes),
        count: Fe::new(count).unwrap_or(Fe::zero()),
    }
}

#[test]
fn each_string_has_its_line(rt: HostRuntime) -> Result<(), AllocError> {
    let strings = [counted(2, b"ab"), counted(1, b"ac")];
    let text = answer_text(rt.alloc(), &strings, 2)?;
    assert!(rt; text.as_slice() == "2\tab\n1\tac\n".as_bytes());
    let none = answer_text(rt.alloc(), &[], 2)?;
    assert!(rt; none.is_empty());
    Ok(())
}

#[test]
fn zeros_at_the_end_are_not_shown(rt: HostRuntime) -> Result<(), AllocError> {
    let empty = answer_text(rt.alloc(), &[counted(2, b"\0")], 1)?;
    assert!(rt; empty.as_slice() == "2\t\n".as_bytes());
    let names = [
        counted(5, b"example.com\0\0\0\0\0"),
        counted(3, b"example.org\0\0\0\0\0"),
    ];
    let text = answer_text(rt.alloc(), &names, 16)?;
    assert!(rt; text.as_slice() == "5\texample.com\n3\texample.org\n".as_bytes());
    Ok(())
}

#[test]
fn unprintable_strings_are_shown_by_their_digits(rt: HostRuntime) -> Result<(), AllocError> {
    let strings = [
        counted(1, &[0x20]),
        counted(1, &[0x5c]),
        counted(1, &[0xff]),
    ];
    let text = answer_text(rt.alloc(), &strings, 1)?;
    assert!(rt; text.as_slice() == "1\t\\x20\n1\t\\x5c\n1\t\\xff\n".as_bytes());
    Ok(())
}

#[test]
fn the_end_of_a_walk_has_its_line(rt: HostRuntime) -> Result<(), AllocError> {
    let whole = sealed_line(rt.alloc(), 3, 3, 16)?;
    assert!(rt; whole.as_str() == "sealed 3 passed 3 levels 16\n");
    let empty = sealed_line(rt.alloc(), 0, 0, 1)?;
    assert!(rt; empty.as_str() == "sealed 0 passed 0 levels 1\n");
    Ok(())
}

#[test]
fn malformed_records_have_their_lines(rt: HostRuntime) -> Result<(), AllocError> {
    let one = refused_line(rt.alloc(), Side::Zero, 0)?;
    assert!(rt; one.as_str() == "refused side 0 record 0\n");
    let text = refused_text(rt.alloc(), Side::One, &[1, 10])?;
    let lines = "refused side 1 record 1\nrefused side 1 record 10\n";
    assert!(rt; text.as_slice() == lines.as_bytes());
    Ok(())
}
