//! The path of a string through both sides' trees, and the corrections of one level.
//! Off the path the corrections make both sides equal; on it they keep the sides' bits different.

ghost use Rattle.std.specs.Prelude.{◌≡◌, Bool, not, if◌then◌else◌};
ghost use Rattle.definitions.specs.Evaluation.{kept_seed, kept_bit, correction_bit};
ghost use Rattle.definitions.specs.Prefixes.{xor as bit_xor};
ghost use Rattle.definitions.specs.Words.{seed_xor, extend, convert};
ghost use Rattle.definitions.specs.Generation.{value_word, path_after, value_signed};
ghost use Rattle.idpf_gen.specs.LevelWords.{kept_seed0, kept_seed1};

use field64::Fe;
use idpf_eval::LevelWord;
use seed_expand::{Children, Converted, Seed, Steps, convert, extend, xor};
use std::marker::Model;
use std::sync::ledger::Ledger;

/// Both sides' seeds and bits at a prefix of the string.
#[derive(Clone, Copy, Debug, PartialEq, Eq)]
pub struct Path {
    /// Side 0's seed.
    pub seed0: Seed,
    /// Side 0's bit.
    pub bit0: bool,
    /// Side 1's seed.
    pub seed1: Seed,
    /// Side 1's bit.
    pub bit1: bool,
}

impl Model for Path {
    ghost use Rattle.definitions.specs.Generation.{Path as Places};

    ghost Value = { Places };

    ghost view = { λ p. record { seed0 = p.seed0; bit0 = p.bit0; seed1 = p.seed1; bit1 = p.bit1 } };

    ghost inverse = { λ p. record { seed0 = p.seed0; bit0 = p.bit0; seed1 = p.seed1; bit1 = p.bit1 } };
}

/// The seed and bit words of a level along the string's bit, from both sides' children.
fn word_of(from0: &Children, from1: &Children, bit: bool) -> LevelWord
    ensures seed { result.seed ≡ seed_xor (kept_seed from0.now (not bit)) (kept_seed from1.now (not bit)) }
    ensures left { result.left ≡ bit_xor (bit_xor from0.now.bit_left from1.now.bit_left) (not bit) }
    ensures right { result.right ≡ bit_xor (bit_xor from0.now.bit_right from1.now.bit_right) bit }
    ensures others { (result.u ≡ 0) × (result.v ≡ 0) × (result.a ≡ 0) × (result.b ≡ 0) }
{
    let (lost0, lost1) = if bit {
        (from0.left, from1.left)
    } else {
        (from0.right, from1.right)
    };
    LevelWord {
        seed: xor(&lost0, &lost1),
        left: from0.bit_left ^ from1.bit_left ^ !bit,
        right: from0.bit_right ^ from1.bit_right ^ bit,
        u: Fe::zero(),
        v: Fe::zero(),
        a: Fe::zero(),
        b: Fe::zero(),
    }
}

/// The seed of a side's kept child, corrected where its parent's bit is set.
fn kept_seed(from: &Children, word: &LevelWord, set: bool, bit: bool) -> Seed
    ensures value { result ≡ (if set then seed_xor (kept_seed from.now bit) word.now.seed else kept_seed from.now bit) }
{
    let seed = if bit { from.right } else { from.left };
    if set { xor(&seed, &word.seed) } else { seed }
}

/// The bit of a side's kept child, corrected where its parent's bit is set.
fn kept_bit(from: &Children, word: &LevelWord, set: bool, bit: bool) -> bool
    ensures value { result ≡ (if set then bit_xor (kept_bit from.now bit) (correction_bit word.now bit) else kept_bit from.now bit) }
{
    let (kept, correction) = if bit {
        (from.bit_right, word.right)
    } else {
        (from.bit_left, word.left)
    };
    if set { kept ^ correction } else { kept }
}

/// An element with the sign of the value word.
fn value_signed(bit1: bool, x: Fe) -> Fe
    ensures value { result ≡ value_signed bit1 x }
{
    if bit1 { x.neg() } else { x }
}

/// The corrected seeds of both sides' children along the string's bit, side 0's first, from the children of the seeds of the path.
pub fn kept_seeds(path: &Path, bit: bool, from0: &Children, from1: &Children) -> (Seed, Seed)
    requires from0 { from0.now ≡ extend path.now.seed0 }
    requires from1 { from1.now ≡ extend path.now.seed1 }
    ensures zero { result.0 ≡ kept_seed0 path.now bit }
    ensures one { result.1 ≡ kept_seed1 path.now bit }
{
    let word = word_of(from0, from1, bit);
    let seed0 = kept_seed(from0, &word, path.bit0, bit);
    let seed1 = kept_seed(from1, &word, path.bit1, bit);
    (seed0, seed1)
}

/// The corrections of a level, without the numbers of the check, and the path after the string's bit: from the children of the seeds
/// of the path, and from what the corrected seeds are converted to. The level's data is `k`.
#[tactic(auto, unfolding(definitions::specs::Generation::value_word, definitions::specs::Generation::path_after), using(crate::proofs::Reduced::reduced))]
pub fn value_level(
    path: &Path,
    bit: bool,
    k: Fe,
    from0: &Children,
    from1: &Children,
    to0: &Converted,
    to1: &Converted,
) -> (LevelWord, Path)
    requires from0 { from0.now ≡ extend path.now.seed0 }
    requires from1 { from1.now ≡ extend path.now.seed1 }
    requires to0 { to0.now ≡ convert (kept_seed0 path.now bit) }
    requires to1 { to1.now ≡ convert (kept_seed1 path.now bit) }
    ensures word { result.0 ≡ value_word path.now bit k }
    ensures path { result.1 ≡ path_after path.now bit }
{
    let mut word = word_of(from0, from1, bit);
    let bit0 = kept_bit(from0, &word, path.bit0, bit);
    let bit1 = kept_bit(from1, &word, path.bit1, bit);
    let u = Fe::one()
        .sub(Fe::from_u128(to0.u))
        .add(Fe::from_u128(to1.u));
    let v = k.sub(Fe::from_u128(to0.v)).add(Fe::from_u128(to1.v));
    word.u = value_signed(bit1, u);
    word.v = value_signed(bit1, v);
    let after = Path {
        seed0: to0.next,
        bit0,
        seed1: to1.next,
        bit1,
    };
    (word, after)
}

/// The corrections of a level, without the numbers of the check, and the path after the string's bit.
pub(crate) fn level_of<L: Ledger>(
    path: &Path,
    bit: bool,
    k: Fe,
    steps: &mut Steps<L>,
) -> (LevelWord, Path)
    ensures word { result.0 ≡ value_word path.now bit k }
    ensures path { result.1 ≡ path_after path.now bit }
{
    let from0 = extend(&path.seed0, steps);
    let from1 = extend(&path.seed1, steps);
    let (seed0, seed1) = kept_seeds(path, bit, &from0, &from1);
    value_level(
        path,
        bit,
        k,
        &from0,
        &from1,
        &convert(&seed0),
        &convert(&seed1),
    )
}
