//! The coins of the check, from the verify seed and the id of a report.
//! A coin belongs to a level and a place in the level's whole list of candidates.

ghost use Rattle.std.specs.Prelude.{◌≡◌, ◌+◌, ◌^◌, ◌<◌, ◌≤◌, length};
ghost use Rattle.definitions.specs.Sketch.{coin_key, coin_at};
ghost use Rattle.sketch_check.specs.Coins.{AreCoins};

use field64::Fe;
use prefix_bits::ReportId;
use seed_expand::{Seed, StreamReader, number_at, part};
use std::marker::Model;

/// The key of a report's coins, seen as its 32 bytes.
#[derive(Clone, Copy, Debug, PartialEq, Eq)]
pub struct CoinKey {
    seed: Seed,
}

impl Model for CoinKey {
    ghost use Rattle.std.specs.Prelude.{List, ℕ};

    ghost Value = { List ℕ };

    ghost view = { λ k. k.seed };

    ghost inverse = { λ bytes. record { seed = bytes } };
}

impl CoinKey {
    /// The key of a report's coins, from the verify seed and the report's id.
    #[tactic(auto, unfolding(definitions::specs::Sketch::coin_key))]
    pub fn of(verify: &Seed, id: &ReportId) -> CoinKey
        ensures value { result ≡ coin_key verify.now id.now }
    {
        let of_high = part(verify, id.high(), 0);
        CoinKey {
            seed: part(&of_high, id.low(), 0),
        }
    }

    /// The coin at a level, counted from 1, of a place in the whole list of candidates, counted from 0.
    #[tactic(auto, unfolding(definitions::specs::Sketch::coin_at))]
    pub fn coin(&self, level: u16, place: u32) -> Fe
        requires place { place < 2 ^ 20 }
        ensures value { result ≡ coin_at self.now level place }
    {
        Fe::from_u128(number_at(&self.seed, u64::from(level), 4 * place))
    }

    /// Fills a slice with the coins of consecutive places from `place` on, read with one generator.
    #[tactic(auto, unfolding(definitions::specs::Sketch::coin_at))]
    pub fn coins(&self, level: u16, place: u32, into: &mut [Fe])
        requires places { place + length into.old ≤ 2 ^ 20 }
        ensures count { length into.new ≡ length into.old }
        ensures value { AreCoins self.now level place into.new }
    {
        let mut reader = StreamReader::at(&self.seed, u64::from(level), 4 * place);
        for coin in into.iter_mut() {
            *coin = Fe::from_u128(reader.number());
        }
    }
}
