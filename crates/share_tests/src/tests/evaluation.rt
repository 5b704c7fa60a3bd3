//! Values of shares beside numbers of an independent implementation and beside the plain evaluation.
//! The first share is all of zero bytes, at width 1; its values at three prefixes are known for both sides.

ghost use Rattle.std.specs.Prelude.{◌≡◌, ◌≤◌, length, IfOk};

use definitions::Sequence;
use definitions::plain_nodes::{PlainNode, PlainWord, descend};
use field64::Fe;
use idpf_eval::{LevelWord, Share, eval_uncounted, same_share};
use prefix_bits::{Prefix, ReportId, Side};
use seed_expand::Seed;
use std::alloc::{AllocError, Global};

fn prefix_of(bits: &[bool]) -> Prefix
    requires few { length bits.now ≤ 8 }
    ensures bits { length result ≡ length bits.now }
{
    let mut prefix = Prefix::empty();
    for bit in bits {
        prefix = prefix.child(*bit);
    }
    prefix
}

// A share of 8 levels that all have this word.
fn share_of(alloc: Global, word: LevelWord) -> Result<Share, AllocError>
    ensures levels { IfOk result (λ s. length s.levels ≡ 8) }
{
    Ok(Share {
        id: ReportId([0; 16]),
        root: Seed([0; 32]),
        corr: Seed([0; 32]),
        levels: Sequence::from_vec(vec![in alloc; word; 8]?),
    })
}

fn zero_word() -> LevelWord {
    LevelWord {
        seed: Seed([0; 32]),
        left: false,
        right: false,
        u: Fe::zero(),
        v: Fe::zero(),
        a: Fe::zero(),
        b: Fe::zero(),
    }
}

#[test]
fn zero_shares_have_the_known_values(rt: HostRuntime) -> Result<(), AllocError> {
    let share = share_of(rt.alloc(), zero_word())?;
    let long = [false, true, true, false, false, false, false, true];
    let one = eval_uncounted(&share, Side::Zero, &prefix_of(&[true]));
    assert_eq!(rt; one.d.number(), 5645781439922100137);
    assert_eq!(rt; one.e.number(), 3250058476778643772);
    let zero = eval_uncounted(&share, Side::Zero, &prefix_of(&[false]));
    assert_eq!(rt; zero.d.number(), 6096033737178632018);
    assert_eq!(rt; zero.e.number(), 18179837045042865774);
    let letter = eval_uncounted(&share, Side::Zero, &prefix_of(&long));
    assert_eq!(rt; letter.d.number(), 11658828542474370880);
    assert_eq!(rt; letter.e.number(), 17527004255893156792);
    let other = eval_uncounted(&share, Side::One, &prefix_of(&[true]));
    assert_eq!(rt; other.d.number(), 12800962629492484184);
    assert_eq!(rt; other.e.number(), 15196685592635940549);
    let other = eval_uncounted(&share, Side::One, &prefix_of(&long));
    assert_eq!(rt; other.d.number(), 6787915526940213441);
    assert_eq!(rt; other.e.number(), 919739813521427529);
    Ok(())
}

#[test]
fn evaluation_equals_the_plain_one(rt: HostRuntime) -> Result<(), AllocError> {
    let word = LevelWord {
        seed: Seed([7; 32]),
        left: true,
        right: false,
        u: Fe::from_u128(5),
        v: Fe::from_u128(u128::MAX),
        a: Fe::one(),
        b: Fe::zero(),
    };
    let share = share_of(rt.alloc(), word)?;
    let plain = PlainWord {
        seed: [7; 32],
        left: true,
        right: false,
        u: 5,
        v: word.v.number(),
    };
    let bits = [true, false, true, true, false, false, true, false];
    let root = PlainNode {
        seed: [0; 32],
        bit: true,
        d: 0,
        e: 0,
    };
    let expected = descend(&[plain; 8], Side::One, &root, &bits);
    let node = eval_uncounted(&share, Side::One, &prefix_of(&bits));
    assert_eq!(rt; node.seed, Seed(expected.seed));
    assert_eq!(rt; node.bit, expected.bit);
    assert_eq!(rt; node.d.number(), expected.d);
    assert_eq!(rt; node.e.number(), expected.e);
    Ok(())
}

#[test]
fn a_copy_equals_its_source(rt: HostRuntime) -> Result<(), AllocError> {
    let share = share_of(rt.alloc(), zero_word())?;
    let copy = share.copy(rt.alloc())?;
    assert!(rt; same_share(&share, &copy));
    let mut other = zero_word();
    other.b = Fe::one();
    assert!(rt; !same_share(&share, &share_of(rt.alloc(), other)?));
    Ok(())
}
