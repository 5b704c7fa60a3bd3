//! Values of generated pairs along the string and off it, the check at each level, and coins beside the plain words.
//! One pair has equal root seeds on both sides. Lists of lines are made together and one by one.

ghost use Rattle.std.specs.Prelude.{◌≡◌, ◌≤◌, ◌%◌, ◌^◌, ◌<◌, IfOk, length};

use definitions::{Sequence, plain_field, plain_words};
use field64::Fe;
use generation_lanes::pair_lists_of;
use idpf_eval::{Share, eval_uncounted};
use idpf_gen::{ClientCoins, LevelCoins, coins_of, gen_, pair_of};
use prefix_bits::{MOST_BITS, Prefix, ReportId, Side};
use seed_expand::Seed;
use sketch_check::{CoinKey, Sums, correlation, masked, open, sigma};
use std::alloc::{AllocError, Global};
use text_strings::LinesError;
use workload::workload;

// Coins of 8 levels with one root seed on both sides.
fn equal_roots(alloc: Global) -> Result<ClientCoins, AllocError>
    ensures levels { IfOk result (λ c. length c.levels ≡ 8) }
{
    let of_level = LevelCoins {
        k: Fe::from_u128(11),
        a0: Fe::from_u128(5),
        b0: Fe::from_u128(6),
    };
    Ok(ClientCoins {
        root0: Seed([3; 32]),
        root1: Seed([3; 32]),
        corr0: Seed([4; 32]),
        corr1: Seed([5; 32]),
        levels: Sequence::from_vec(vec![in alloc; of_level; 8]?),
    })
}

// Both sides' values at a prefix, added.
fn added(zero: &Share, one: &Share, prefix: &Prefix) -> (u64, u64)
    requires zero { length prefix.now ≤ length zero.now.levels }
    requires one { length prefix.now ≤ length one.now.levels }
{
    let left = eval_uncounted(zero, Side::Zero, prefix);
    let right = eval_uncounted(one, Side::One, prefix);
    (left.d.add(right.d).number(), left.e.add(right.e).number())
}

// A side's sums over the two children of a prefix.
fn side_sums(share: &Share, side: Side, coins: &CoinKey, parent: &Prefix) -> Sums
    requires room { length parent.now < MOST_BITS }
    requires bits { length parent.now < length share.now.levels }
{
    let level = parent.len() + 1;
    let left = eval_uncounted(share, side, &parent.child(false));
    let right = eval_uncounted(share, side, &parent.child(true));
    let sums = Sums::zero()
        .with(coins.coin(level, 0), left.d, left.e)
        .with(coins.coin(level, 1), right.d, right.e);
    masked(&sums, &correlation(&share.corr, level))
}

// What both sides' sigmas add up to over these two prefixes, with a number added to side 0's B.
fn sigma_sum(zero: &Share, one: &Share, parent: &Prefix, more: u64) -> u64
    requires room { length parent.now < MOST_BITS }
    requires zero { length parent.now < length zero.now.levels }
    requires one { length parent.now < length one.now.levels }
{
    let coins = CoinKey::of(&Seed([9; 32]), &zero.id);
    let opened = open(
        &side_sums(zero, Side::Zero, &coins, parent),
        &side_sums(one, Side::One, &coins, parent),
    );
    let left = zero.levels.as_slice()[usize::from(parent.len())];
    let right = one.levels.as_slice()[usize::from(parent.len())];
    let b = left.b.add(Fe::from_u128(u128::from(more)));
    sigma(Side::Zero, left.a, b, &opened)
        .add(sigma(Side::One, right.a, right.b, &opened))
        .number()
}

#[test]
fn equal_roots_add_up_to_the_point_and_pass(rt: HostRuntime) -> Result<(), AllocError> {
    let letter = Prefix::of_bytes(b"a");
    let coins = equal_roots(rt.alloc())?;
    let (zero, one) = pair_of(rt.alloc(), ReportId::of(1, 2), &letter, &coins)?;
    let mut parent = Prefix::empty();
    for place in 0..8_u16 {
        let child = parent.child(letter.bit(place));
        assert_eq!(rt; added(&zero, &one, &child), (1, 11));
        assert_eq!(rt;
            added(&zero, &one, &parent.child(!letter.bit(place))),
            (0, 0)
        );
        assert_eq!(rt; sigma_sum(&zero, &one, &parent, 0), 0);
        assert_eq!(rt; sigma_sum(&zero, &one, &parent, 1), 1);
        parent = child;
    }
    assert_eq!(rt; parent, letter);
    Ok(())
}

#[test]
fn coins_are_words_of_the_report_seed(rt: HostRuntime) -> Result<(), AllocError> {
    let master = [6; 32];
    let coins = coins_of(rt.alloc(), &Seed(master), 4, 16)?;
    let seed = plain_words::part(&master, 5, 0);
    assert_eq!(rt; coins.root0, Seed(plain_words::part(&seed, 0, 0)));
    assert_eq!(rt; coins.root1, Seed(plain_words::part(&seed, 0, 8)));
    assert_eq!(rt; coins.corr0, Seed(plain_words::part(&seed, 0, 16)));
    assert_eq!(rt; coins.corr1, Seed(plain_words::part(&seed, 0, 24)));
    assert_eq!(rt; coins.levels.len(), 16);
    for (place, of_level) in coins.levels.as_slice().iter().enumerate() {
        let level = place as u64 + 1;
        assert_eq!(rt;
            of_level.k.number(),
            plain_field::reduced(plain_words::number(&seed, level, 0))
        );
        assert_eq!(rt;
            of_level.a0.number(),
            plain_field::reduced(plain_words::number(&seed, level, 4))
        );
        assert_eq!(rt;
            of_level.b0.number(),
            plain_field::reduced(plain_words::number(&seed, level, 8))
        );
    }
    Ok(())
}

#[test]
fn a_line_has_its_id_and_coins(rt: HostRuntime) -> Result<(), AllocError> {
    let string = Prefix::of_bytes(b"ab");
    let (zero, one) = gen_(rt.alloc(), &Seed([6; 32]), 4, 258, &string)?;
    let coins = coins_of(rt.alloc(), &Seed([6; 32]), 4, 16)?;
    let (first, second) = pair_of(rt.alloc(), ReportId::of(258, 4), &string, &coins)?;
    assert!(rt; zero == first);
    assert!(rt; one == second);
    assert_eq!(rt; added(&zero, &one, &string).0, 1);
    assert_eq!(rt; added(&zero, &one, &Prefix::of_bytes(b"ac")), (0, 0));
    Ok(())
}

// Whether a share stands there.
fn stands(found: Option<&Share>, share: &Share) -> bool {
    match found {
        Some(found) => found == share,
        None => false,
    }
}

// How many of so many lines have the same shares on both sides, made together and one by one.
fn same_both_ways(alloc: Global, count: u32, width: u8) -> Result<u32, LinesError>
    requires count { count < 100 }
    requires width { (1 ≤ width) × (width ≤ 4) }
{
    let master = Seed([6; 32]);
    let strings = workload(alloc, count, width)?;
    let bits = 8 * u16::from(width);
    let (zeros, ones) = pair_lists_of(alloc, &master, 258, 3, &strings, bits)?;
    let mut same: u32 = 0;
    for (place, string) in strings.iter().enumerate() {
        let (zero, one) = gen_(alloc, &master, 3 + place as u32, 258, string)?;
        if stands(zeros.get(place), &zero) && stands(ones.get(place), &one) {
            same = same.saturating_add(1);
        }
    }
    Ok(same)
}

#[test]
fn lines_made_together_are_those_made_one_by_one(rt: HostRuntime) -> Result<(), LinesError> {
    assert_eq!(rt; same_both_ways(rt.alloc(), 0, 1)?, 0);
    assert_eq!(rt; same_both_ways(rt.alloc(), 1, 1)?, 1);
    assert_eq!(rt; same_both_ways(rt.alloc(), 7, 1)?, 7);
    assert_eq!(rt; same_both_ways(rt.alloc(), 64, 1)?, 64);
    assert_eq!(rt; same_both_ways(rt.alloc(), 65, 1)?, 65);
    assert_eq!(rt; same_both_ways(rt.alloc(), 1, 4)?, 1);
    assert_eq!(rt; same_both_ways(rt.alloc(), 7, 4)?, 7);
    assert_eq!(rt; same_both_ways(rt.alloc(), 64, 4)?, 64);
    assert_eq!(rt; same_both_ways(rt.alloc(), 65, 4)?, 65);
    Ok(())
}
