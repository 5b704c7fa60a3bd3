//! The generated pair of a string: both shares, level by level along the string's path.
//! That its values add up and that it passes the check are clauses of each call here.

ghost use Rattle.std.specs.Prelude.{◌≡◌, ◌+◌, ◌%◌, ◌<◌, ◌≤◌, IfOk, length};
ghost use Rattle.definitions.specs.Field.{sub};
ghost use Rattle.definitions.specs.Sketch.{triples_added, correction_a, correction_b};
ghost use Rattle.definitions.specs.Generation.{share0, share1, client_coins, words0, words1, path_after, start, joint_correlation};
ghost use Rattle.generation_laws.specs.Points.{coins_at};
ghost use Rattle.idpf_gen.specs.LevelWords.{word0, word1};
ghost use Rattle.definitions.specs.ReportIds.{report_id};
ghost use Rattle.idpf_gen.specs.Pairs.{AddUpToThePointOf, PassesEachLevel};

use crate::coins::{ClientCoins, LevelCoins, coins_of};
use crate::path::{Path, level_of};
use definitions::Sequence;
use field64::Fe;
use idpf_eval::{LevelWord, Share};
use prefix_bits::{MOST_BITS, Prefix, ReportId};
use seed_expand::{Seed, Steps};
use sketch_check::{Triple, correlation};
use std::alloc::{AllocError, Global};
use std::marker::Brand;
use std::sync::ledger::{Blank, Ledger};

/// Both sides' parts of the correlation added.
pub fn joined(zero: &Triple, one: &Triple) -> Triple
    ensures value { result ≡ triples_added zero.now one.now }
{
    Triple {
        a: zero.a.add(one.a),
        b: zero.b.add(one.b),
        c: zero.c.add(one.c),
    }
}

/// The number A of both sides together.
fn number_a(joint: &Triple, k: Fe) -> Fe
    ensures value { result ≡ correction_a joint.now k }
{
    Fe::zero().sub(Fe::from_u128(2).mul(joint.a)).add(k)
}

/// The number B of both sides together.
fn number_b(joint: &Triple, k: Fe) -> Fe
    ensures value { result ≡ correction_b joint.now k }
{
    joint
        .a
        .mul(joint.a)
        .add(joint.b)
        .sub(joint.a.mul(k))
        .add(joint.c)
}

/// Both sides' words of a level, side 0's first, from the corrections that they share: each with its numbers of the check. The
/// correlation is that of both sides.
pub fn side_words(word: LevelWord, coins: LevelCoins, joint: &Triple) -> (LevelWord, LevelWord)
    ensures zero { result.0 ≡ record word { a = coins.a0; b = coins.b0 } }
    ensures one { result.1 ≡ record word { a = sub (correction_a joint.now coins.k) coins.a0; b = sub (correction_b joint.now coins.k) coins.b0 } }
{
    let mut zero = word;
    zero.a = coins.a0;
    zero.b = coins.b0;
    let mut one = word;
    one.a = number_a(joint, coins.k).sub(coins.a0);
    one.b = number_b(joint, coins.k).sub(coins.b0);
    (zero, one)
}

/// Both sides' words of a level, and the path after the string's bit.
fn words_of_level<L: Ledger>(
    path: &Path,
    bit: bool,
    level: u16,
    coins: &ClientCoins,
    steps: &mut Steps<L>,
) -> (LevelWord, LevelWord, Path)
    requires level { (1 ≤ level) × (level ≤ length coins.now.levels) }
    ensures zero { result.0 ≡ word0 path.now bit (coins_at coins.now level) }
    ensures one { result.1 ≡ word1 (joint_correlation coins.now level) path.now bit (coins_at coins.now level) }
    ensures path { result.2 ≡ path_after path.now bit }
{
    let of_level = coins.levels.as_slice()[usize::from(level - 1)];
    let (word, after) = level_of(path, bit, of_level.k, steps);
    let joint = joined(
        &correlation(&coins.corr0, level),
        &correlation(&coins.corr1, level),
    );
    let (zero, one) = side_words(word, of_level, &joint);
    (zero, one, after)
}

/// Both sides' words of all levels.
fn words_of<L: Ledger>(
    alloc: Global,
    alpha: &Prefix,
    coins: &ClientCoins,
    blank: Blank,
) -> Result<(Vec<LevelWord>, Vec<LevelWord>), AllocError>
    requires levels { length coins.now.levels ≡ length alpha.now }
    requires name { blank.name ≡ L.name }
    requires parts { blank.parts ≡ L.parts }
    requires some { 0 < blank.parts }
    ensures zero { IfOk result (λ r. r.0.items ≡ words0 (start coins.now) alpha.now coins.now.levels) }
    ensures one { IfOk result (λ r. r.1.items ≡ words1 (joint_correlation coins.now) 1 (start coins.now) alpha.now coins.now.levels) }
{
    let mut steps = Steps::<L>::open(blank);
    let mut path = Path {
        seed0: coins.root0,
        bit0: false,
        seed1: coins.root1,
        bit1: true,
    };
    let mut zero = Vec::with_capacity(alloc, usize::from(alpha.len()))?;
    let mut one = Vec::with_capacity(alloc, usize::from(alpha.len()))?;
    for place in 0..alpha.len() {
        let (of_zero, of_one, after) = words_of_level(
            &path,
            alpha.bit(place),
            place + 1,
            coins,
            &mut steps,
        );
        zero.push(of_zero)?;
        one.push(of_one)?;
        path = after;
    }
    Ok((zero, one))
}

/// The generated pair of an id, a string of 8 to `MOST_BITS` bits, a multiple of 8, and coins of as many levels: side 0's
/// share and side 1's. `AllocError` is want of memory for the words.
#[tactic(auto, using(crate::proofs::PairLaws::pair_lengths))]
pub fn pair_of(
    alloc: Global,
    id: ReportId,
    alpha: &Prefix,
    coins: &ClientCoins,
) -> Result<(Share, Share), AllocError>
    requires levels { length coins.now.levels ≡ length alpha.now }
    requires bits { (8 ≤ length alpha.now) × (length alpha.now ≤ MOST_BITS) × (length alpha.now % 8 ≡ 0) }
    ensures zero { IfOk result (λ pair. pair.0 ≡ share0 id alpha.now coins.now) }
    ensures one { IfOk result (λ pair. pair.1 ≡ share1 id alpha.now coins.now) }
    ensures levels { IfOk result (λ pair. (length pair.0.levels ≡ length alpha.now) × (length pair.1.levels ≡ length alpha.now)) }
    ensures point { IfOk result (λ pair. AddUpToThePointOf alpha.now coins.now pair.0 pair.1) }
    ensures honest { IfOk result (λ pair. PassesEachLevel (length alpha.now) pair.0 pair.1) }
{
    let (zero, one) = words_of::<Brand>(alloc, alpha, coins, Blank::new(1))?;
    let zero = Share {
        id,
        root: coins.root0,
        corr: coins.corr0,
        levels: Sequence::from_vec(zero),
    };
    let one = Share {
        id,
        root: coins.root1,
        corr: coins.corr1,
        levels: Sequence::from_vec(one),
    };
    Ok((zero, one))
}

/// The generated pair of a line, counted from 0: its id is the tag and the line, its coins are those of the line.
/// The string has 8 to `MOST_BITS` bits, a multiple of 8. `AllocError` is want of memory for coins or words.
#[tactic(auto, using(crate::proofs::PairLaws::pair_lengths))]
pub fn gen_(
    alloc: Global,
    master: &Seed,
    line: u32,
    tag: u64,
    alpha: &Prefix,
) -> Result<(Share, Share), AllocError>
    requires bits { (8 ≤ length alpha.now) × (length alpha.now ≤ MOST_BITS) × (length alpha.now % 8 ≡ 0) }
    ensures zero { IfOk result (λ pair. pair.0 ≡ share0 (report_id tag line) alpha.now (client_coins master.now line (length alpha.now))) }
    ensures one { IfOk result (λ pair. pair.1 ≡ share1 (report_id tag line) alpha.now (client_coins master.now line (length alpha.now))) }
    ensures levels { IfOk result (λ pair. (length pair.0.levels ≡ length alpha.now) × (length pair.1.levels ≡ length alpha.now)) }
    ensures point { IfOk result (λ pair. AddUpToThePointOf alpha.now (client_coins master.now line (length alpha.now)) pair.0 pair.1) }
    ensures honest { IfOk result (λ pair. PassesEachLevel (length alpha.now) pair.0 pair.1) }
{
    let coins = coins_of(alloc, master, line, alpha.len())?;
    pair_of(alloc, ReportId::of(tag, u64::from(line)), alpha, &coins)
}
