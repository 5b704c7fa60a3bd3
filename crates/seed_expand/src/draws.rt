//! Words, seeds and numbers drawn from a generator, in the stream's order.
//! Each call says which words it took and where the generator stands behind them.

ghost use Rattle.std.specs.Prelude.{◌≡◌, ◌+◌, ◌^◌, ◌<◌};
ghost use Rattle.rand_chacha.specs.ChaCha.{key_of, seed_of, word_at};
ghost use Rattle.seed_expand.specs.Drawn.{eight_at, four_at};

use crate::Seed;
use rand_chacha::ChaCha20Rng;
use rand_core::SeedableRng;
use rand_core::utils::NextWord;

/// The generator that stands at a place of a stream.
#[inline(always)]
pub(crate) fn at(seed: &Seed, stream: u64, place: u32) -> ChaCha20Rng
    ensures value { result ≡ record { key = key_of seed.now; stream = stream; word_pos = place } }
{
    let mut rng = ChaCha20Rng::from_seed(seed.0);
    rng.set_stream(stream);
    rng.set_word_pos(u128::from(place));
    rng
}

/// The next word.
#[inline(always)]
pub(crate) fn next(rng: &mut ChaCha20Rng) -> u32
    requires place { rng.old.word_pos < 2 ^ 33 }
    ensures value { result ≡ word_at 10 rng.old.key rng.old.stream rng.old.word_pos }
    ensures after { rng.new ≡ record rng.old { word_pos = rng.old.word_pos + 1 } }
{
    rng.next_word()
}

/// Eight words as bytes, each with its lowest byte first.
#[inline(always)]
fn bytes_of(words: [u32; 8]) -> [u8; 32]
    ensures value { result ≡ seed_of words }
{
    let mut bytes = [0; 32];
    bytes[0..4].copy_from_slice(&words[0].to_le_bytes());
    bytes[4..8].copy_from_slice(&words[1].to_le_bytes());
    bytes[8..12].copy_from_slice(&words[2].to_le_bytes());
    bytes[12..16].copy_from_slice(&words[3].to_le_bytes());
    bytes[16..20].copy_from_slice(&words[4].to_le_bytes());
    bytes[20..24].copy_from_slice(&words[5].to_le_bytes());
    bytes[24..28].copy_from_slice(&words[6].to_le_bytes());
    bytes[28..32].copy_from_slice(&words[7].to_le_bytes());
    bytes
}

/// The next eight words.
#[inline(always)]
#[tactic(auto, unfolding(crate::specs::Drawn::eight_at))]
fn next_eight(rng: &mut ChaCha20Rng) -> [u32; 8]
    requires place { rng.old.word_pos < 2 ^ 32 }
    ensures value { result ≡ eight_at rng.old.key rng.old.stream rng.old.word_pos }
    ensures after { rng.new ≡ record rng.old { word_pos = rng.old.word_pos + 8 } }
{
    [
        next(rng),
        next(rng),
        next(rng),
        next(rng),
        next(rng),
        next(rng),
        next(rng),
        next(rng),
    ]
}

/// The seed of the next eight words.
#[inline(always)]
pub(crate) fn next_seed(rng: &mut ChaCha20Rng) -> Seed
    requires place { rng.old.word_pos < 2 ^ 32 }
    ensures value { result ≡ seed_of (eight_at rng.old.key rng.old.stream rng.old.word_pos) }
    ensures after { rng.new ≡ record rng.old { word_pos = rng.old.word_pos + 8 } }
{
    Seed(bytes_of(next_eight(rng)))
}

/// The number of the next four words.
#[inline(always)]
#[tactic(auto, unfolding(crate::specs::Drawn::four_at))]
pub(crate) fn next_number(rng: &mut ChaCha20Rng) -> u128
    requires place { rng.old.word_pos < 2 ^ 32 }
    ensures value { result ≡ four_at rng.old.key rng.old.stream rng.old.word_pos }
    ensures after { rng.new ≡ record rng.old { word_pos = rng.old.word_pos + 4 } }
{
    let first = u128::from(next(rng));
    let second = u128::from(next(rng));
    let third = u128::from(next(rng));
    let fourth = u128::from(next(rng));
    first + (second << 32) + (third << 64) + (fourth << 96)
}
