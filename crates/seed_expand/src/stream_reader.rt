//! Seeds and numbers read one after another from one stream, with one generator.
//! It serves whoever wants several values of a stream, as coins and correlations are.

ghost use Rattle.std.specs.Prelude.{◌≡◌, ◌+◌, ◌^◌, ◌<◌};
ghost use Rattle.definitions.specs.Words.{part, number};

use crate::Seed;
use crate::draws::{at, next_number, next_seed};
use rand_chacha::ChaCha20Rng;
use std::marker::Model;

/// A reader of a seed's stream, seen as the seed, the stream's number and the place of the next word.
#[derive(Drop)]
pub struct StreamReader {
    seed: Seed,
    rng: ChaCha20Rng,
}

impl Model for StreamReader {
    ghost use Rattle.std.specs.Prelude.{◌≡◌};
    ghost use Rattle.rand_chacha.specs.ChaCha.{key_of};
    ghost use Rattle.seed_expand.specs.Reading.{Reading};

    ghost Value = { Reading };

    ghost view = { λ r. record { seed = r.seed; stream = r.rng.stream; place = r.rng.word_pos } };

    ghost invariant = { λ r. r.rng.key ≡ key_of r.seed };
}

impl StreamReader {
    /// A reader that stands at a place of a stream, counted in words from 0.
    pub fn at(seed: &Seed, stream: u64, place: u32) -> StreamReader
        ensures reader { result ≡ record { seed = seed.now; stream = stream; place = place } }
    {
        StreamReader {
            seed: *seed,
            rng: at(seed, stream, place),
        }
    }

    /// The seed of the next eight words. The next word is to be below 2^32.
    #[tactic(auto, unfolding(crate::specs::Drawn::eight_at, definitions::specs::Words::part, definitions::specs::Words::word, definitions::specs::Words::word_bytes))]
    pub fn seed(&mut self) -> Seed
        requires place { self.old.place < 2 ^ 32 }
        ensures value { result ≡ part self.old.seed self.old.stream self.old.place }
        ensures after { self.new ≡ record self.old { place = self.old.place + 8 } }
    {
        next_seed(&mut self.rng)
    }

    /// The number, below 2^128, of the next four words. The next word is to be below 2^32.
    #[tactic(auto, unfolding(crate::specs::Drawn::four_at, definitions::specs::Words::number, definitions::specs::Words::word))]
    pub fn number(&mut self) -> u128
        requires place { self.old.place < 2 ^ 32 }
        ensures value { result ≡ number self.old.seed self.old.stream self.old.place }
        ensures after { self.new ≡ record self.old { place = self.old.place + 4 } }
    {
        next_number(&mut self.rng)
    }
}
