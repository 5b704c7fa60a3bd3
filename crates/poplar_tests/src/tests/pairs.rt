//! Shares of `gen`'s files at each prefix of their string and beside it, and their check over lists with it and without.
//! The data of a level are read by the plain words of the report's seed.

ghost use Rattle.std.specs.Prelude.{◌≡◌, ◌<◌, ◌≤◌, length};

use super::{MASTER, generates};
use definitions::{plain_field, plain_words};
use field64::Fe;
use idpf_eval::{Share, eval_uncounted};
use idpf_gen::gen_;
use prefix_bits::{Prefix, Side};
use seed_expand::Seed;
use share_format::{Record, RecordReader};
use shelf_io::MemoryShelf;
use sketch_check::{CoinKey, Sums, correlation, masked, open, passes, sigma};
use std::alloc::{AllocError, Global};

// The bytes that the digits of the master seed spell.
const BYTES: [u8; 32] = [
    0, 1, 2, 3, 4, 5, 6, 7, 8, 9, 10, 11, 12, 13, 14, 15, 16, 17, 18, 19, 20, 21, 22, 23, 24, 25,
    26, 27, 28, 29, 30, 31,
];

// Both sides' values at a prefix, added.
fn added(zero: &Share, one: &Share, prefix: &Prefix) -> (u64, u64)
    requires zero { length prefix.now ≤ length zero.now.levels }
    requires one { length prefix.now ≤ length one.now.levels }
{
    let left = eval_uncounted(zero, Side::Zero, prefix);
    let right = eval_uncounted(one, Side::One, prefix);
    (left.d.add(right.d).number(), left.e.add(right.e).number())
}

// Whether at each prefix of a string the values of line 0's shares add up to 1 and the level's data, and to zeros beside it.
fn adds_up(zero: &Share, one: &Share, string: &Prefix) -> bool {
    let levels = usize::from(string.len());
    if zero.levels.len() != levels || one.levels.len() != levels {
        return false;
    }
    let seed = plain_words::part(&BYTES, 1, 0);
    let mut parent = Prefix::empty();
    let mut right = true;
    for place in 0..string.len() {
        let child = parent.child(string.bit(place));
        let beside = parent.child(!string.bit(place));
        let number = plain_words::number(&seed, u64::from(place) + 1, 0);
        let data = plain_field::reduced(number);
        if added(zero, one, &child) != (1, data) || added(zero, one, &beside) != (0, 0) {
            right = false;
        }
        parent = child;
    }
    right && parent == *string
}

// The first share of a side's file, if there is one.
fn first_share(alloc: Global, shelf: &mut MemoryShelf, name: &str, side: Side) -> Option<Share> {
    let mut reader = RecordReader::open(alloc, shelf, name, side).ok()?;
    match reader.next(shelf).ok()? {
        Record::Share(share) => Some(share),
        Record::Malformed(_) | Record::End => None,
    }
}

// Whether `gen` of one line makes two files whose shares add up to the line's string.
fn files_add_up(
    alloc: Global,
    width: &str,
    line: &[u8],
    string: &Prefix,
) -> Result<bool, AllocError> {
    let mut shelf = MemoryShelf::new(alloc, Vec::new(alloc)).with("line", line)?;
    let words = [
        "gen", "--width", width, "--master", MASTER, "line", "f0", "f1",
    ];
    let made = generates(alloc, &mut shelf, &words, 0, "")?;
    match (
        first_share(alloc, &mut shelf, "f0", Side::Zero),
        first_share(alloc, &mut shelf, "f1", Side::One),
    ) {
        (Some(zero), Some(one)) => Ok(made && adds_up(&zero, &one, string)),
        _ => Ok(false),
    }
}

// The sums with one more string of 16 bits, weighed by the coin of its place.
fn with_string(sums: Sums, share: &Share, side: Side, place: u32, string: &Prefix) -> Sums
    requires levels { length share.now.levels ≡ 16 }
    requires string { length string.now ≡ 16 }
    requires place { place < 3 }
{
    let coins = CoinKey::of(&Seed([9; 32]), &share.id);
    let node = eval_uncounted(share, side, string);
    sums.with(coins.coin(16, place), node.d, node.e)
}

// A side's masked sums over `aa`, another string of 16 bits, and `ad`.
fn sums_over(share: &Share, side: Side, other: &Prefix) -> Sums
    requires levels { length share.now.levels ≡ 16 }
    requires other { length other.now ≡ 16 }
{
    let first = with_string(Sums::zero(), share, side, 0, &Prefix::of_bytes(b"aa"));
    let second = with_string(first, share, side, 1, other);
    let third = with_string(second, share, side, 2, &Prefix::of_bytes(b"ad"));
    masked(&third, &correlation(&share.corr, 16))
}

// A side's sigma of the last of 16 levels.
fn last_sigma(share: &Share, side: Side, opened: &Sums) -> Fe
    requires levels { length share.now.levels ≡ 16 }
{
    let word = share.levels.as_slice()[15];
    sigma(side, word.a, word.b, opened)
}

// Whether the two sides' shares pass over `aa`, another string of 16 bits, and `ad`; and whether they pass where side 0's
// sigma is raised by 1.
fn pass_over(zero: &Share, one: &Share, other: &Prefix) -> (bool, bool)
    requires zero { length zero.now.levels ≡ 16 }
    requires one { length one.now.levels ≡ 16 }
    requires other { length other.now ≡ 16 }
{
    let opened = open(
        &sums_over(zero, Side::Zero, other),
        &sums_over(one, Side::One, other),
    );
    let left = last_sigma(zero, Side::Zero, &opened);
    let right = last_sigma(one, Side::One, &opened);
    (passes(left, right), passes(left.add(Fe::one()), right))
}

#[test]
fn values_add_up_to_the_point(rt: HostRuntime) -> Result<(), AllocError> {
    let (one, two) = (Prefix::of_bytes(b"a"), Prefix::of_bytes(b"ab"));
    let most = Prefix::of_bytes(b"poplar poplar poplar poplar popl");
    assert!(rt; files_add_up(rt.alloc(), "1", b"a\n", &one)?);
    assert!(rt; files_add_up(rt.alloc(), "2", b"ab\n", &two)?);
    assert!(rt; !files_add_up(rt.alloc(), "2", b"ac\n", &two)?);
    assert!(rt;
        files_add_up(
            rt.alloc(),
            "32",
            b"poplar poplar poplar poplar popl\n",
            &most
        )?
    );
    Ok(())
}

#[test]
fn a_pair_passes_with_its_string_and_without(rt: HostRuntime) -> Result<(), AllocError> {
    let string = Prefix::of_bytes(b"ab");
    let (zero, one) = gen_(rt.alloc(), &Seed(BYTES), 0, 258, &string)?;
    assert!(rt; pass_over(&zero, &one, &string) == (true, false));
    assert!(rt; pass_over(&zero, &one, &Prefix::of_bytes(b"ac")) == (true, false));
    Ok(())
}
