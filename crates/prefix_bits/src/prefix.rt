//! A prefix of a string: a list of bits, kept in words of 64 bits with the first bit highest.
//! `MOST_BITS` alone says how long a prefix may be.

ghost use Rattle.std.specs.Prelude.{◌≡◌, ◌≤◌, ◌<◌, ◌+◌, ◌-◌, ◌^◌, ◌%◌, ◌++◌, ◌∷◌, [], length, take, slice_get};
ghost use Rattle.prefix_bits.specs.Bits.{low_bits};
ghost use Rattle.definitions.specs.Prefixes.{is_prefix};

mod bytes;
mod comparisons;

use crate::MOST_BITS;
use std::marker::Model;

/// The words that hold the bits of a prefix.
const WORDS: usize = MOST_BITS as usize / 64;

/// A list of at most `MOST_BITS` bits.
#[derive(Clone, Copy, Debug)]
pub struct Prefix {
    words: [u64; WORDS],
    len: u16,
}

impl Model for Prefix {
    ghost use Rattle.std.specs.Prelude.{List, Bool, length};
    ghost use Rattle.prefix_bits.specs.Stored.{stored_bits, IsStored, words_of};
    ghost use Rattle.prefix_bits.specs.StoredLaws.{stored_inverse};
    ghost use Rattle.prefix_bits.specs.declared.TheConstants.{MOST_BITS};
    ghost use Rattle.prefix_bits.specs.declared.prefix.TheConstants.{WORDS};

    ghost Value = { List Bool };

    ghost view = { λ a. stored_bits a.words a.len };

    ghost invariant = { λ a. IsStored WORDS MOST_BITS a.words a.len };

    ghost inverse = { λ bits. record { words = words_of WORDS bits; len = length bits } };

    ghost inverse_ok = { λ a h. stored_inverse WORDS MOST_BITS a.words a.len h (λ w n. record { words = w; len = n }) };
}

impl Prefix {
    /// No bit.
    pub fn empty() -> Prefix
        ensures { result ≡ [] }
    {
        Prefix {
            words: [0; WORDS],
            len: 0,
        }
    }

    /// The number of bits.
    pub fn len(&self) -> u16
        ensures count { result ≡ length self.now }
        ensures most { result ≤ MOST_BITS }
    {
        self.len
    }

    /// The bit at a place, counted from 0, which is to be below the number of bits.
    pub fn bit(&self, place: u16) -> bool
        requires { place < length self.now }
        ensures { slice_get self.now place ≡ Some result }
    {
        let place = usize::from(place);
        self.words[place / 64] >> (63 - place % 64) & 1 == 1
    }

    /// The bits followed by one more. There is to be room for it.
    pub fn child(&self, bit: bool) -> Prefix
        requires { length self.now < MOST_BITS }
        ensures { result ≡ self.now ++ bit ∷ [] }
    {
        self.followed_by(1, u64::from(bit))
    }

    /// The bits without the last. There is to be one.
    pub fn parent(&self) -> Prefix
        requires { 1 ≤ length self.now }
        ensures { result ≡ take (length self.now - 1) self.now }
    {
        let last = usize::from(self.len - 1);
        let mut words = self.words;
        words[last / 64] &= !(1 << (63 - last % 64));
        Prefix {
            words,
            len: self.len - 1,
        }
    }

    /// Whether `other` begins with these bits.
    pub fn is_prefix_of(&self, other: &Prefix) -> bool
        ensures { result ≡ is_prefix self.now other.now }
    {
        if other.len() < self.len() {
            return false;
        }
        for place in 0..self.len() {
            if self.bit(place) != other.bit(place) {
                return false;
            }
        }
        true
    }

    /// The bits followed by the low `count` bits of a number, the highest of them first. They are to be one or more, and
    /// to end in the word in which they begin.
    fn followed_by(&self, count: u16, bits: u64) -> Prefix
        requires room { length self.now < MOST_BITS }
        requires some { 0 < count }
        requires in_word { length self.now % 64 + count ≤ 64 }
        requires fits { bits < 2 ^ count }
        ensures { result ≡ self.now ++ low_bits count bits }
    {
        let end = usize::from(self.len);
        let mut words = self.words;
        words[end / 64] |= bits << (64 - end % 64 - usize::from(count));
        Prefix {
            words,
            len: self.len + count,
        }
    }
}
