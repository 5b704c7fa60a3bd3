//! The ids and root seeds of two lines beside those of an independent implementation, whose master seed is the bytes 0 to 31.
//! Two lines show that each line has coins of its own.

ghost use Rattle.std.specs.Prelude.{◌≡◌};

use idpf_eval::Share;
use pair_files::PairSettings;
use pair_shares::pair_lists;
use prefix_bits::{Prefix, ReportId};
use seed_expand::Seed;
use std::alloc::AllocError;

/// Side 0's root seed of the second line, and side 1's.
const ROOT_ZERO: [u8; 32] = [
    0x8c, 0xdd, 0x48, 0x3a, 0xe7, 0xa0, 0x04, 0x13, 0xa6, 0x60, 0xfc, 0xb2, 0x2c, 0x1a, 0xcc, 0x0a,
    0x3b, 0x14, 0xc4, 0x98, 0xfa, 0xb5, 0xe0, 0xd9, 0x29, 0x7a, 0x8e, 0xdf, 0xa6, 0xe4, 0xac, 0x05,
];

const ROOT_ONE: [u8; 32] = [
    0xb9, 0x78, 0xe5, 0x19, 0x9e, 0x05, 0x60, 0xd6, 0x17, 0x5f, 0xcb, 0x30, 0xa2, 0x6b, 0x7f, 0x5d,
    0x18, 0x12, 0xaf, 0x7a, 0xd5, 0x2d, 0xfb, 0xa1, 0xb2, 0xfd, 0xf8, 0x30, 0x18, 0xcd, 0xbc, 0xd3,
];

// Settings with the bytes 0 to 31 for the master seed.
fn settings() -> PairSettings
    ensures { result.width ≡ 2 }
{
    let mut master = [0; 32];
    for (place, byte) in master.iter_mut().enumerate() {
        *byte = place as u8;
    }
    PairSettings {
        width: 2,
        master: Seed(master),
        tag: 258,
    }
}

// Whether there is a share with this id and root seed.
fn is_share(found: Option<&Share>, id: ReportId, root: Seed) -> bool {
    match found {
        Some(share) => share.id == id && share.root == root,
        None => false,
    }
}

#[test]
fn the_second_line_has_its_own_coins(rt: HostRuntime) -> Result<(), AllocError> {
    let strings = [Prefix::of_bytes(b"ab"), Prefix::of_bytes(b"ac")];
    let (zeros, ones) = pair_lists(rt.alloc(), &settings(), &strings)?;
    assert_eq!(rt; zeros.len(), 2);
    assert_eq!(rt; ones.len(), 2);
    let id = ReportId::of(258, 1);
    assert!(rt; is_share(zeros.get(1), id, Seed(ROOT_ZERO)));
    assert!(rt; is_share(ones.get(1), id, Seed(ROOT_ONE)));
    Ok(())
}
