//! The coins of a client's report: two root seeds, two correlation seeds, and three elements of each level.
//! They are read from the streams of the report's own seed, which comes from a master seed and a line's number.

ghost use Rattle.std.specs.Prelude.{◌≡◌, ◌+◌, ◌≤◌, IfOk, length};
ghost use Rattle.definitions.specs.Generation.{client_coins, level_coins, coins_of_levels};

use definitions::Sequence;
use field64::Fe;
use seed_expand::{Seed, StreamReader, part};
use std::alloc::{AllocError, Global};
use std::marker::Model;

/// A client's coins of one level.
#[derive(Clone, Copy, Debug, PartialEq, Eq)]
pub struct LevelCoins {
    /// The data of the level: what the second values add up to on the string's prefix.
    pub k: Fe,
    /// Side 0's number A of the check.
    pub a0: Fe,
    /// Side 0's number B of the check.
    pub b0: Fe,
}

impl Model for LevelCoins {
    ghost use Rattle.definitions.specs.Generation.{LevelCoins as Coins};

    ghost Value = { Coins };

    ghost view = { λ c. record { k = c.k; a0 = c.a0; b0 = c.b0 } };

    ghost inverse = { λ c. record { k = c.k; a0 = c.a0; b0 = c.b0 } };
}

/// All the coins of a client's report.
#[derive(Debug, Drop, PartialEq, Eq)]
pub struct ClientCoins {
    /// Side 0's root seed.
    pub root0: Seed,
    /// Side 1's root seed.
    pub root1: Seed,
    /// The seed of side 0's part of the correlation.
    pub corr0: Seed,
    /// The seed of side 1's part of the correlation.
    pub corr1: Seed,
    /// The coins of the levels 1, 2, .. in order.
    pub levels: Sequence<LevelCoins>,
}

impl Model for ClientCoins {
    ghost use Rattle.definitions.specs.Generation.{ClientCoins as Coins};

    ghost Value = { Coins };

    ghost view = { λ c. record { root0 = c.root0; root1 = c.root1; corr0 = c.corr0; corr1 = c.corr1; levels = c.levels } };

    ghost inverse = { λ c. record { root0 = c.root0; root1 = c.root1; corr0 = c.corr0; corr1 = c.corr1; levels = c.levels } };
}

/// The coins of a level, read with one generator.
fn coins_of_level(seed: &Seed, level: u16) -> LevelCoins
    ensures value { result ≡ level_coins seed.now level }
{
    let mut reader = StreamReader::at(seed, u64::from(level), 0);
    let k = Fe::from_u128(reader.number());
    let a0 = Fe::from_u128(reader.number());
    let b0 = Fe::from_u128(reader.number());
    LevelCoins { k, a0, b0 }
}

/// The coins of the first levels.
#[tactic(auto, using(crate::proofs::CoinSteps::coin_steps))]
fn coins_of_all(alloc: Global, seed: &Seed, bits: u16) -> Result<Vec<LevelCoins>, AllocError>
    ensures value { IfOk result (λ coins. coins.items ≡ coins_of_levels seed.now bits) }
    ensures count { IfOk result (λ coins. length coins.items ≡ bits) }
{
    let mut coins = Vec::with_capacity(alloc, usize::from(bits))?;
    for done in 0..bits {
        coins.push(coins_of_level(seed, done + 1))?;
    }
    Ok(coins)
}

/// The coins of the report of a line, counted from 0, for strings of so many bits. `AllocError` is want of memory for
/// the levels' coins.
#[tactic(auto, unfolding(definitions::specs::Generation::client_coins), using(crate::proofs::PairLaws::pair_lengths))]
pub fn coins_of(
    alloc: Global,
    master: &Seed,
    line: u32,
    bits: u16,
) -> Result<ClientCoins, AllocError>
    ensures value { IfOk result (λ coins. coins ≡ client_coins master.now line bits) }
    ensures levels { IfOk result (λ coins. length coins.levels ≡ bits) }
{
    let seed = part(master, u64::from(line) + 1, 0);
    let levels = coins_of_all(alloc, &seed, bits)?;
    let mut reader = StreamReader::at(&seed, 0, 0);
    let root0 = reader.seed();
    let root1 = reader.seed();
    let corr0 = reader.seed();
    let corr1 = reader.seed();
    Ok(ClientCoins {
        root0,
        root1,
        corr0,
        corr1,
        levels: Sequence::from_vec(levels),
    })
}
