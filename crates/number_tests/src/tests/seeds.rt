//! Worked values of the expansion, and the fast bodies beside the plain words.
//! The bytes for the zero seed are the first two vectors of the ChaCha20 stream in RFC 8439.

ghost use Rattle.std.specs.Prelude.{◌≡◌, ◌<◌};
ghost use Rattle.definitions.specs.Words.{extend};

use definitions::plain_words;
use seed_expand::{
    Children, Converted, Seed, Steps, StreamReader, convert, extend, number_at, part, xor,
};
use std::marker::Brand;
use std::sync::ledger::{Blank, Ledger};

// The children of a seed, for a caller that counts nothing else.
fn extend_on<L: Ledger>(seed: &Seed, blank: Blank) -> Children
    requires name { blank.name ≡ L.name }
    requires parts { blank.parts ≡ L.parts }
    requires some { 0 < blank.parts }
    ensures value { result ≡ extend seed.now }
{
    extend(seed, &mut Steps::<L>::open(blank))
}

#[test]
fn zero_seed_gives_the_first_blocks(rt: HostRuntime) {
    let children = extend_on::<Brand>(&Seed([0; 32]), Blank::new(1));
    let left = [
        0x76, 0xb8, 0xe0, 0xad, 0xa0, 0xf1, 0x3d, 0x90, 0x40, 0x5d, 0x6a, 0xe5, 0x53, 0x86, 0xbd,
        0x28, 0xbd, 0xd2, 0x19, 0xb8, 0xa0, 0x8d, 0xed, 0x1a, 0xa8, 0x36, 0xef, 0xcc, 0x8b, 0x77,
        0x0d, 0xc7,
    ];
    let right = [
        0xda, 0x41, 0x59, 0x7c, 0x51, 0x57, 0x48, 0x8d, 0x77, 0x24, 0xe0, 0x3f, 0xb8, 0xd8, 0x4a,
        0x37, 0x6a, 0x43, 0xb8, 0xf4, 0x15, 0x18, 0xa1, 0x1c, 0xc3, 0x87, 0xb6, 0x69, 0xb2, 0xee,
        0x65, 0x86,
    ];
    assert_eq!(rt; children.left, Seed(left));
    assert_eq!(rt; children.right, Seed(right));
    assert!(rt; children.bit_left);
    assert!(rt; children.bit_right);
}

#[test]
fn fast_bodies_equal_the_plain_words(rt: HostRuntime) {
    let mut bytes = [0; 32];
    for turn in 0..8_u8 {
        bytes[usize::from(turn)] = 31 * turn + 7;
        let seed = Seed(bytes);
        let children = extend_on::<Brand>(&seed, Blank::new(1));
        let bits = plain_words::word(&bytes, 0, 16);
        let expected = Children {
            left: Seed(plain_words::part(&bytes, 0, 0)),
            right: Seed(plain_words::part(&bytes, 0, 8)),
            bit_left: bits % 2 == 1,
            bit_right: bits / 2 % 2 == 1,
        };
        assert_eq!(rt; children, expected);
        let expected = Converted {
            next: Seed(plain_words::part(&bytes, 1, 0)),
            u: plain_words::number(&bytes, 1, 8),
            v: plain_words::number(&bytes, 1, 12),
        };
        assert_eq!(rt; convert(&seed), expected);
        let other = part(&seed, 5, 16);
        assert_eq!(rt; other, Seed(plain_words::part(&bytes, 5, 16)));
        assert_eq!(rt; number_at(&seed, 5, 3), plain_words::number(&bytes, 5, 3));
        assert_eq!(rt;
            xor(&seed, &other),
            Seed(plain_words::xor(&bytes, &other.0))
        );
    }
}
