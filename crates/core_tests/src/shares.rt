//! The shares of the trials: those of three strings of one byte, two of which are equal, others under the same ids, and a pair
//! whose root seeds are equal.

ghost use Rattle.std.specs.Prelude.{◌≡◌, length, IfOk};

use definitions::{Sequence, Side};
use field64::Fe;
use idpf_eval::Share;
use idpf_gen::{ClientCoins, LevelCoins, gen_, pair_of};
use prefix_bits::{Prefix, ReportId};
use seed_expand::Seed;
use std::alloc::{AllocError, Global};

/// The string of a line, 0 to 2.
pub fn string_of(line: u32) -> Prefix
    ensures { length result ≡ 8 }
{
    if line == 1 {
        Prefix::of_bytes(b"q")
    } else {
        Prefix::of_bytes(b"a")
    }
}

/// A side's share of a line. One that clashes has the line's id and another content. `AllocError` is want of memory.
pub fn share_of(alloc: Global, line: u32, side: Side, clashes: bool) -> Result<Share, AllocError>
    ensures { IfOk result (λ share. length share.levels ≡ 8) }
{
    let master = Seed([u8::from(clashes); 32]);
    let (zero, one) = gen_(alloc, &master, line, 258, &string_of(line))?;
    Ok(match side {
        Side::Zero => zero,
        Side::One => one,
    })
}

/// A side's share of the string `a` whose two root seeds are equal. `AllocError` is want of memory.
pub fn equal_roots_share(alloc: Global, side: Side) -> Result<Share, AllocError>
    ensures { IfOk result (λ share. length share.levels ≡ 8) }
{
    let of_level = LevelCoins {
        k: Fe::from_u128(11),
        a0: Fe::from_u128(5),
        b0: Fe::from_u128(6),
    };
    let coins = ClientCoins {
        root0: Seed([3; 32]),
        root1: Seed([3; 32]),
        corr0: Seed([4; 32]),
        corr1: Seed([5; 32]),
        levels: Sequence::from_vec(vec![in alloc; of_level; 8]?),
    };
    let (zero, one) = pair_of(alloc, ReportId::of(258, 0), &string_of(0), &coins)?;
    Ok(match side {
        Side::Zero => zero,
        Side::One => one,
    })
}
