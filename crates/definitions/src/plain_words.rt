//! The words of the ChaCha20 stream, each by a generator of its own, and the seeds and numbers that they make.
//! They are the yardstick of the faster bodies in `seed_expand`.

ghost use Rattle.std.specs.Prelude.{◌≡◌, ◌+◌, ◌-◌, ◌*◌, ◌^◌, ◌≤◌};
ghost use Rattle.definitions.specs.Words.{word, part, number, seed_xor};
ghost use Rattle.rand_chacha.specs.ChaCha.{key_of};

use rand_chacha::ChaCha20Rng;
use rand_core::SeedableRng;
use rand_core::utils::NextWord;

/// The word at a place of a stream, counted from 0.
#[tactic(auto, unfolding(crate::specs::Words::word))]
pub fn word(seed: &[u8; 32], stream: u64, place: u32) -> u32
    ensures value { result ≡ word seed.now stream place }
{
    let mut rng = ChaCha20Rng::from_seed(*seed);
    rng.set_stream(stream);
    rng.set_word_pos(u128::from(place));
    rng.next_word()
}

/// The 32 bytes of eight words from a place on, each word with its lowest byte first.
#[tactic(auto, unfolding(crate::specs::Words::word_bytes))]
pub fn part(seed: &[u8; 32], stream: u64, place: u32) -> [u8; 32]
    requires place { place ≤ 2 ^ 32 - 8 }
    ensures value { result ≡ part seed.now stream place }
{
    let mut bytes = [0; 32];
    for k in 0..8 {
        let word = word(seed, stream, place + k as u32);
        bytes[4 * k..4 * k + 4].copy_from_slice(&word.to_le_bytes());
    }
    bytes
}

/// The number of four words from a place on, the first word the lowest.
#[tactic(auto, unfolding(crate::specs::Words::number))]
pub fn number(seed: &[u8; 32], stream: u64, place: u32) -> u128
    requires place { place ≤ 2 ^ 32 - 4 }
    ensures value { result ≡ number seed.now stream place }
{
    let first = u128::from(word(seed, stream, place));
    let second = u128::from(word(seed, stream, place + 1));
    let third = u128::from(word(seed, stream, place + 2));
    let fourth = u128::from(word(seed, stream, place + 3));
    first + (second << 32) + (third << 64) + (fourth << 96)
}

/// Two seeds, byte by byte.
pub fn xor(left: &[u8; 32], right: &[u8; 32]) -> [u8; 32]
    ensures value { result ≡ seed_xor left.now right.now }
{
    let mut bytes = *left;
    for (k, byte) in bytes.iter_mut().enumerate() {
        *byte ^= right[k];
    }
    bytes
}
