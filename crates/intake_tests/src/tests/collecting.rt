//! What no clause says: that the calls succeed, with few uploaders and with more of them than shares.
//! Which ids stand is read off the rule by hand; the long lists are compared with the batch of the lists themselves.

ghost use Rattle.std.specs.Prelude.{◌≡◌, ◌<◌, ◌≤◌, IfOk, length};

use definitions::{Sequence, Side};
use field64::Fe;
use idpf_eval::{LevelWord, Share, same_share};
use prefix_bits::ReportId;
use report_batch::{Batch, batch_of};
use report_collection::Collect;
use seed_expand::Seed;
use shelf_io::OpenGate;
use std::alloc::{AllocError, Global};
use std::sync::Wait;
use std::thread::Threads;

// A share of 8 levels under an id; its content is the byte of its root seed.
fn share_of(alloc: Global, number: u64, content: u8) -> Result<Share, AllocError> {
    let word = LevelWord {
        seed: Seed([0; 32]),
        left: false,
        right: false,
        u: Fe::zero(),
        v: Fe::zero(),
        a: Fe::zero(),
        b: Fe::zero(),
    };
    Ok(Share {
        id: ReportId::of(258, number),
        root: Seed([content; 32]),
        corr: Seed([0; 32]),
        levels: Sequence::from_vec(vec![in alloc; word; 8]?),
    })
}

// A share for each of so many ids, and a second one for the first of them.
fn shares_of(alloc: Global, ids: u64, repeats: u64, content: u8) -> Result<Vec<Share>, AllocError> {
    let mut shares = Vec::new(alloc);
    for number in 0..ids {
        shares.push(share_of(alloc, number, content)?)?;
    }
    for number in 0..repeats {
        shares.push(share_of(alloc, number, content)?)?;
    }
    Ok(shares)
}

// The batch of what so many uploaders collected, side by side.
fn collected<R: Threads + Wait + Sync>(
    rt: &R,
    alloc: Global,
    uploaders: u32,
    zero: Vec<Share>,
    one: Vec<Share>,
) -> Result<Batch, AllocError>
    requires { (1 ≤ uploaders) × (uploaders ≤ 64) }
{
    let mut collect = Collect::new(alloc, uploaders)?;
    collect.add(rt, Side::Zero, zero, &OpenGate)?;
    collect.add(rt, Side::One, one, &OpenGate)?;
    collect.seal()
}

// Whether two lists have equal shares at each place.
fn are_equal(shares: &[Share], others: &[Share]) -> bool {
    shares.len() == others.len()
        && shares
            .iter()
            .zip(others)
            .all(|(share, other)| same_share(share, other))
}

#[test]
fn a_record_given_twice_counts_once(rt: HostRuntime) -> Result<(), AllocError> {
    let alloc = rt.alloc();
    for uploaders in [1, 4] {
        let zero = shares_of(alloc, 1, 1, 2)?;
        let one = shares_of(alloc, 1, 0, 3)?;
        let batch = collected(&rt, alloc, uploaders, zero, one)?;
        assert_eq!(rt; batch.ids(), [ReportId::of(258, 0)].as_slice());
        assert!(rt;
            are_equal(
                batch.shares(Side::Zero),
                shares_of(alloc, 1, 0, 2)?.as_slice()
            )
        );
        assert!(rt;
            are_equal(
                batch.shares(Side::One),
                shares_of(alloc, 1, 0, 3)?.as_slice()
            )
        );
    }
    Ok(())
}

#[test]
fn more_uploaders_than_shares(rt: HostRuntime) -> Result<(), AllocError> {
    let alloc = rt.alloc();
    let zero = shares_of(alloc, 3, 0, 2)?;
    let one = shares_of(alloc, 3, 0, 3)?;
    let batch = collected(&rt, alloc, 64, zero, one)?;
    let expected = [
        ReportId::of(258, 0),
        ReportId::of(258, 1),
        ReportId::of(258, 2),
    ];
    assert_eq!(rt; batch.ids(), expected.as_slice());
    Ok(())
}

#[test]
fn four_uploaders_make_the_batch_of_the_lists(rt: HostRuntime) -> Result<(), AllocError> {
    let alloc = rt.alloc();
    let zero = shares_of(alloc, 6000, 2000, 2)?;
    let one = shares_of(alloc, 6000, 2000, 3)?;
    let batch = collected(&rt, alloc, 4, zero, one)?;
    let zero = shares_of(alloc, 6000, 2000, 2)?;
    let one = shares_of(alloc, 6000, 2000, 3)?;
    let expected = batch_of(alloc, zero, one)?;
    assert_eq!(rt; batch.len(), 6000);
    assert!(rt; batch.ids() == expected.ids());
    assert!(rt; are_equal(batch.shares(Side::Zero), expected.shares(Side::Zero)));
    assert!(rt; are_equal(batch.shares(Side::One), expected.shares(Side::One)));
    Ok(())
}
