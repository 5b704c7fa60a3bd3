//! Values read from single words: a side, a prefix, a name.
//! Each call is the reading of its name in specs/Values.antt.

ghost use Rattle.std.specs.Prelude.{◌≡◌, ◌≤◌, length, IfSome};
ghost use Rattle.std.specs.List.{list_all};
ghost use Rattle.command_words.specs.Values.{side_of, prefix_of, is_name, bits_of_digits, is_digit, number_in, seed_of};

use hex::FromHex;
use prefix_bits::{MOST_BITS, Prefix, Side};
use seed_expand::Seed;

/// The side of a word 0 or 1.
pub(crate) fn read_side(word: &str) -> Option<Side>
    ensures value { result ≡ side_of word.now }
{
    if word == "0" {
        Some(Side::Zero)
    } else if word == "1" {
        Some(Side::One)
    } else {
        None
    }
}

// The bits of characters 0 and 1, of which there are not too many.
fn bits_of(digits: &[u8]) -> Option<Prefix>
    requires few { length digits.now ≤ MOST_BITS }
    ensures value { result ≡ bits_of_digits digits.now }
{
    let mut prefix = Prefix::empty();
    for digit in digits {
        if *digit != 48 && *digit != 49 {
            return None;
        }
        prefix = prefix.child(*digit == 49);
    }
    Some(prefix)
}

/// The bits of a word of 1 to `MOST_BITS` characters 0 or 1.
pub(crate) fn read_prefix(word: &str) -> Option<Prefix>
    ensures value { result ≡ prefix_of word.now }
{
    let digits = word.as_bytes();
    if digits.is_empty() || digits.len() > usize::from(MOST_BITS) {
        return None;
    }
    bits_of(digits)
}

/// Whether a word is a name, which is not empty.
pub(crate) fn is_name(word: &str) -> bool
    ensures value { result ≡ is_name word.now }
{
    !word.is_empty()
}

// Whether each byte is a decimal digit.
fn are_digits(bytes: &[u8]) -> bool
    ensures value { result ≡ list_all is_digit bytes.now }
{
    for byte in bytes {
        if *byte < 48 || *byte > 57 {
            return false;
        }
    }
    true
}

/// The number of a word of 1 to 20 decimal digits, where it lies within the bounds.
#[tactic(auto, using(crate::proofs::NumberSteps::number_steps))]
pub(crate) fn read_number(word: &str, least: u64, most: u64) -> Option<u64>
    ensures value { result ≡ number_in least most word.now }
    ensures within { IfSome result (λ number. (least ≤ number) × (number ≤ most)) }
{
    let digits = word.as_bytes();
    if digits.is_empty() || digits.len() > 20 || !are_digits(digits) {
        return None;
    }
    match word.parse::<u64>() {
        Ok(number) => {
            if number < least || number > most {
                None
            } else {
                Some(number)
            }
        }
        Err(_) => None,
    }
}

/// The seed of a word of 64 hexadecimal digits of either case.
pub(crate) fn read_seed(word: &str) -> Option<Seed>
    ensures value { result ≡ seed_of word.now }
{
    match <[u8; 32] as FromHex>::from_hex(word) {
        Ok(bytes) => Some(Seed(bytes)),
        Err(_) => None,
    }
}
