//! Which files are refused and where, how lines are cut and padded, and the shown text.
//! The rows are the project's own examples.

ghost use Rattle.std.specs.Prelude.{◌≡◌, IfOk, vec_len};

use prefix_bits::Prefix;
use std::alloc::{AllocError, Global};
use text_strings::*;

// The same byte, so many times.
fn repeated(alloc: Global, byte: u8, count: usize) -> Result<Vec<u8>, AllocError>
    ensures { IfOk result (λ bytes. vec_len bytes ≡ count) }
{
    let mut bytes = Vec::new(alloc);
    bytes.resize(count, byte)?;
    Ok(bytes)
}

// Whether bytes are shown by this text.
fn shows(alloc: Global, bytes: &[u8], text: &str) -> Result<bool, AllocError> {
    Ok(shown(alloc, bytes)?.as_str() == text)
}

#[test]
fn one_line_too_many(rt: HostRuntime) {
    let bytes = repeated(rt.alloc(), b'\n', 16_055).expect(&rt, "memory");
    assert!(rt; read_lines(rt.alloc(), &bytes, 32) == Err(LinesError::TooMany { lines: 16_055 }));
}

#[test]
fn as_many_lines_as_fit(rt: HostRuntime) {
    let bytes = repeated(rt.alloc(), b'\n', 16_054).expect(&rt, "memory");
    let strings = read_lines(rt.alloc(), &bytes, 32).expect(&rt, "good lines");
    assert_eq!(rt; strings.len(), 16_054);
    let zeros = Prefix::of_bytes(&[0; 32]);
    assert!(rt; strings.iter().all(|string| *string == zeros));
}

#[test]
fn a_fault_has_its_line(rt: HostRuntime) {
    let long = read_lines(rt.alloc(), b"a\nab\n", 1);
    assert!(rt; long == Err(LinesError::LineLong { line: 1 }));
    let zero = read_lines(rt.alloc(), &[0x61, 0x0a, 0x00, 0x0a], 1);
    assert!(rt; zero == Err(LinesError::ZeroByte { line: 1 }));
}

#[test]
fn the_last_line_needs_no_line_feed(rt: HostRuntime) {
    let strings = read_lines(rt.alloc(), b"\r\n\nb", 2).expect(&rt, "good lines");
    assert_eq!(rt; strings.len(), 3);
    assert!(rt; strings[0] == Prefix::of_bytes(b"\r\0"));
    assert!(rt; strings[1] == Prefix::of_bytes(&[0; 2]));
    assert!(rt; strings[2] == Prefix::of_bytes(b"b\0"));
}

#[test]
fn no_byte_is_no_line(rt: HostRuntime) {
    let strings = read_lines(rt.alloc(), b"", 1).expect(&rt, "good lines");
    assert!(rt; strings.is_empty());
}

#[test]
fn unprintable_strings_are_shown(rt: HostRuntime) {
    let forms = ["\\xff", "\\x20", "\\x5c"];
    let strings = read_lines(rt.alloc(), &[0xff, 0x0a, 0x20, 0x0a, 0x5c, 0x0a], 1).expect(
        &rt,
        "good lines",
    );
    assert_eq!(rt; strings.len(), 3);
    for (string, form) in strings.iter().zip(forms) {
        let mut bytes = [0; 1];
        string.to_bytes(&mut bytes);
        assert!(rt; shows(rt.alloc(), &bytes, form).expect(&rt, "memory"));
    }
}

#[test]
fn zeros_are_cut_at_the_end_alone(rt: HostRuntime) {
    let alloc = rt.alloc();
    assert!(rt; shows(alloc, &[0x61, 0x00, 0x62, 0x00, 0x00], "a\\x00b").expect(&rt, "memory"));
    assert!(rt; shows(alloc, &[0x21, 0x7e, 0x7f], "!~\\x7f").expect(&rt, "memory"));
    assert!(rt; shows(alloc, &[], "").expect(&rt, "memory"));
}
