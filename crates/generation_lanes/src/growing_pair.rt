//! A line's pair on its way down the string's path: its seeds, and both sides' words so far.
//! That the words are those of the pair is kept by the type.

ghost use Rattle.std.specs.Prelude.{◌≡◌, ◌%◌, ◌<◌, length, IfOk};
ghost use Rattle.definitions.specs.Field.{modulus};
ghost use Rattle.definitions.specs.Words.{extend, convert};
ghost use Rattle.idpf_gen.specs.LevelWords.{kept_seed0, kept_seed1};
ghost use Rattle.seed_lanes.specs.Blocks.{numbers_of};
ghost use Rattle.generation_lanes.specs.Growing.{begun, bit_next, one_level, turn_of, IsReady, IsWhole, zero_made, one_made};
ghost use Rattle.generation_lanes.specs.Seeds.{seed_at};

use crate::line_seed::LineSeed;
use crate::turn::Turn;
use definitions::Sequence;
use field64::Fe;
use idpf_eval::{LevelWord, Share};
use idpf_gen::{LevelCoins, Path, joined, kept_seeds, side_words, value_level};
use prefix_bits::{Prefix, ReportId};
use seed_expand::{Children, Converted, Seed, StreamReader, part};
use seed_lanes::Numbers;
use sketch_check::Triple;
use std::alloc::{AllocError, Global};
use std::marker::Model;

/// The pair of a line's string, made down to some level.
#[derive(Drop)]
pub(crate) struct GrowingPair {
    master: Seed,
    tag: u64,
    line: u32,
    string: Prefix,
    coins: Seed,
    root0: Seed,
    root1: Seed,
    corr0: Seed,
    corr1: Seed,
    done: u16,
    path: Path,
    zero: Vec<LevelWord>,
    one: Vec<LevelWord>,
}

impl Model for GrowingPair {
    ghost use Rattle.std.specs.Prelude.{length};
    ghost use Rattle.definitions.specs.Generation.{client_coins};
    ghost use Rattle.generation_lanes.specs.Growing.{Growing, HasSeeds, IsGrown};

    ghost Value = { Growing };

    ghost view = { λ p. record { master = p.master; tag = p.tag; line = p.line; string = p.string; done = p.done; path = p.path } };

    ghost invariant = { λ p. HasSeeds p.master p.line p.string p.coins p.root0 p.root1 p.corr0 p.corr1
        × IsGrown (client_coins p.master p.line (length p.string)) p.string p.done p.path p.zero.items p.one.items };
}

/// The word before any correction.
pub(crate) fn blank_word() -> LevelWord {
    LevelWord {
        seed: Seed([0; 32]),
        left: false,
        right: false,
        u: Fe::zero(),
        v: Fe::zero(),
        a: Fe::zero(),
        b: Fe::zero(),
    }
}

/// A level's coins from three numbers.
fn coins_from(numbers: &Numbers) -> LevelCoins
    ensures value { result ≡ record { k = numbers.now.first % modulus; a0 = numbers.now.second % modulus; b0 = numbers.now.third % modulus } }
{
    LevelCoins {
        k: Fe::from_u128(numbers.first),
        a0: Fe::from_u128(numbers.second),
        b0: Fe::from_u128(numbers.third),
    }
}

/// A level's data from three numbers.
fn data_from(numbers: &Numbers) -> Fe
    ensures value { result ≡ numbers.now.first % modulus }
{
    Fe::from_u128(numbers.first)
}

/// A side's part of the correlation from three numbers.
fn triple_from(numbers: &Numbers) -> Triple
    ensures value { result ≡ record { a = numbers.now.first % modulus; b = numbers.now.second % modulus; c = numbers.now.third % modulus } }
{
    Triple {
        a: Fe::from_u128(numbers.first),
        b: Fe::from_u128(numbers.second),
        c: Fe::from_u128(numbers.third),
    }
}

impl GrowingPair {
    /// The pair of a line before its first level. `AllocError` is want of memory for the words.
    #[tactic(auto, unfolding(definitions::specs::Generation::client_coins))]
    pub(crate) fn begin(
        alloc: Global,
        master: &Seed,
        tag: u64,
        line: u32,
        string: &Prefix,
    ) -> Result<GrowingPair, AllocError>
        ensures { IfOk result (λ p. p ≡ begun master.now tag line string.now) }
    {
        let zero = vec![in alloc; blank_word(); usize::from(string.len())]?;
        let one = vec![in alloc; blank_word(); usize::from(string.len())]?;
        let coins = part(master, u64::from(line) + 1, 0);
        let mut reader = StreamReader::at(&coins, 0, 0);
        let root0 = reader.seed();
        let root1 = reader.seed();
        let corr0 = reader.seed();
        let corr1 = reader.seed();
        let path = Path {
            seed0: root0,
            bit0: false,
            seed1: root1,
            bit1: true,
        };
        Ok(GrowingPair {
            master: *master,
            tag,
            line,
            string: *string,
            coins,
            root0,
            root1,
            corr0,
            corr1,
            done: 0,
            path,
            zero,
            one,
        })
    }

    /// One of the line's seeds.
    pub(crate) fn seed(&self, which: LineSeed) -> Seed
        ensures { result ≡ seed_at which self.now }
    {
        match which {
            LineSeed::Zero => self.path.seed0,
            LineSeed::One => self.path.seed1,
            LineSeed::Coins => self.coins,
            LineSeed::CorrZero => self.corr0,
            LineSeed::CorrOne => self.corr1,
        }
    }

    /// The bit of the string at the next level.
    #[tactic(auto, using(crate::proofs::PairSteps::bit_steps))]
    fn next_bit(&self) -> bool
        requires { self.now.done < length self.now.string }
        ensures { result ≡ bit_next self.now }
    {
        self.string.bit(self.done)
    }

    /// The corrected seeds of both sides' children along the next bit, from the children of both sides' seeds.
    pub(crate) fn kept_seeds(&self, level: u16, from0: &Children, from1: &Children) -> (Seed, Seed)
        requires ready { IsReady level self.now }
        requires from0 { from0.now ≡ extend self.now.path.seed0 }
        requires from1 { from1.now ≡ extend self.now.path.seed1 }
        ensures zero { result.0 ≡ kept_seed0 self.now.path (bit_next self.now) }
        ensures one { result.1 ≡ kept_seed1 self.now.path (bit_next self.now) }
    {
        kept_seeds(&self.path, self.next_bit(), from0, from1)
    }

    /// What the next level gives: from the children of both sides' seeds, from what the corrected seeds are converted to, and from
    /// the numbers of the level's coins and correlation.
    pub(crate) fn turn(
        &self,
        level: u16,
        from0: &Children,
        from1: &Children,
        to0: &Converted,
        to1: &Converted,
        coins: &Numbers,
        corr0: &Numbers,
        corr1: &Numbers,
    ) -> Turn
        requires ready { IsReady level self.now }
        requires from0 { from0.now ≡ extend self.now.path.seed0 }
        requires from1 { from1.now ≡ extend self.now.path.seed1 }
        requires to0 { to0.now ≡ convert (kept_seed0 self.now.path (bit_next self.now)) }
        requires to1 { to1.now ≡ convert (kept_seed1 self.now.path (bit_next self.now)) }
        requires coins { coins.now ≡ numbers_of level (seed_at LineSeed.Coins self.now) }
        requires corr0 { corr0.now ≡ numbers_of level (seed_at LineSeed.CorrZero self.now) }
        requires corr1 { corr1.now ≡ numbers_of level (seed_at LineSeed.CorrOne self.now) }
        ensures { result ≡ turn_of self.now }
    {
        let of_level = coins_from(coins);
        let joint = joined(&triple_from(corr0), &triple_from(corr1));
        let (word, path) = value_level(
            &self.path,
            self.next_bit(),
            data_from(coins),
            from0,
            from1,
            to0,
            to1,
        );
        let (zero, one) = side_words(word, of_level, &joint);
        Turn { zero, one, path }
    }

    /// Takes what the next level gives.
    pub(crate) fn take(&mut self, level: u16, turn: &Turn)
        requires ready { IsReady level self.old }
        requires turn { turn.now ≡ turn_of self.old }
        ensures { self.new ≡ one_level self.old }
    {
        let place = usize::from(self.done);
        self.zero[place] = turn.zero;
        self.one[place] = turn.one;
        self.path = turn.path;
        self.done = level;
    }

    /// Both sides' shares, side 0's first, where every level is made.
    pub(crate) fn finish(self) -> (Share, Share)
        requires { IsWhole self }
        ensures zero { result.0 ≡ zero_made self }
        ensures one { result.1 ≡ one_made self }
    {
        let id = ReportId::of(self.tag, u64::from(self.line));
        let zero = Share {
            id,
            root: self.root0,
            corr: self.corr0,
            levels: Sequence::from_vec(self.zero),
        };
        let one = Share {
            id,
            root: self.root1,
            corr: self.corr1,
            levels: Sequence::from_vec(self.one),
        };
        (zero, one)
    }
}
