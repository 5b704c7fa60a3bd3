//! A string's bytes as text: printing characters as themselves, and every other byte by its hexadecimal digits.
//! The rule is the project's own; the text never has a space, a tab or a line feed.

ghost use Rattle.std.specs.Prelude.{◌≡◌, ◌<◌, ◌^◌, ◌++◌, IfOk, OnOk};
ghost use Rattle.std.specs.String.{string_bytes};
ghost use Rattle.std.specs.Char.{digit_char};
ghost use Rattle.text_strings.specs.Shown.{shown, shown_byte, is_plain};

use crate::cuts::without_end_zeros;
use std::alloc::{AllocError, Global};

/// The text of bytes, without the zero bytes at their end. A printing character of ASCII, other than the space and the
/// backslash, stands for itself; any other byte is written `\x` and its hexadecimal digits, two and in lower case.
/// `AllocError` is want of memory for the text.
#[tactic(auto, unfolding(crate::specs::Shown::shown))]
pub fn shown(alloc: Global, bytes: &[u8]) -> Result<String, AllocError>
    ensures { IfOk result (λ text. string_bytes text ≡ shown bytes.now) }
{
    let mut text = String::new(alloc);
    for byte in without_end_zeros(bytes) {
        show_byte(&mut text, *byte)?;
    }
    Ok(text)
}

/// Adds the text of a byte.
fn show_byte(text: &mut String, byte: u8) -> Result<(), AllocError>
    ensures { OnOk result (string_bytes text.new ≡ string_bytes text.old ++ shown_byte byte) }
{
    if is_plain(byte) {
        text.push(char::from(byte))
    } else {
        text.push_str("\\x")?;
        text.push(digit(byte / 16))?;
        text.push(digit(byte % 16))
    }
}

/// Whether a byte is shown as itself.
fn is_plain(byte: u8) -> bool
    ensures { result ≡ is_plain byte }
{
    (0x21..=0x7e).contains(&byte) && byte != b'\\'
}

/// The lower-case hexadecimal digit of a number below 16.
fn digit(number: u8) -> char
    requires { number < 16 }
    ensures { result ≡ digit_char number }
{
    char::from(if number < 10 {
        b'0' + number
    } else {
        b'a' + (number - 10)
    })
}
