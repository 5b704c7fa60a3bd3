//! Batches of small lists: a clash, repeats, a shuffled list and an empty one.
//! Which ids stand is read off the rule by hand: an id needs one content on each side.

ghost use Rattle.std.specs.Prelude.{◌≡◌, length, IfOk};

use definitions::{Sequence, Side};
use field64::Fe;
use idpf_eval::{LevelWord, Share, same_share};
use intake_state::IntakeState;
use prefix_bits::ReportId;
use report_batch::{Batch, batch_of};
use seed_expand::Seed;
use std::alloc::{AllocError, Global};

fn id_of(number: u64) -> ReportId {
    ReportId::of(258, number)
}

// A share of 8 levels under an id; its content is the byte of its root seed.
fn share_of(alloc: Global, number: u64, content: u8) -> Result<Share, AllocError> {
    let word = LevelWord {
        seed: Seed([0; 32]),
        left: false,
        right: false,
        u: Fe::zero(),
        v: Fe::zero(),
        a: Fe::zero(),
        b: Fe::zero(),
    };
    Ok(Share {
        id: id_of(number),
        root: Seed([content; 32]),
        corr: Seed([0; 32]),
        levels: Sequence::from_vec(vec![in alloc; word; 8]?),
    })
}

// A share for each pair of a number of an id and a content.
fn shares_of(alloc: Global, pairs: &[(u64, u8)]) -> Result<Vec<Share>, AllocError> {
    let mut shares = Vec::new(alloc);
    for (number, content) in pairs {
        shares.push(share_of(alloc, *number, *content)?)?;
    }
    Ok(shares)
}

// The batch of such shares. Nothing is told of it, so that the tests stay cheap to prove.
fn batch_from(alloc: Global, zero: &[(u64, u8)], one: &[(u64, u8)]) -> Result<Batch, AllocError> {
    batch_of(alloc, shares_of(alloc, zero)?, shares_of(alloc, one)?)
}

// Whether this share stands at the place.
fn holds(shares: &[Share], place: usize, share: &Share) -> bool {
    match shares.get(place) {
        Some(held) => same_share(held, share),
        None => false,
    }
}

#[test]
fn an_id_with_two_contents_is_left_out(rt: HostRuntime) -> Result<(), AllocError> {
    let alloc = rt.alloc();
    let twice = [(7, 1), (7, 1), (7, 2), (7, 1), (8, 1)];
    let one = [(8, 5), (7, 5)];
    let batch = batch_from(alloc, &twice, &one)?;
    assert_eq!(rt; batch.ids(), [id_of(8)].as_slice());
    let first = [(7, 2), (7, 1), (7, 1), (7, 1)];
    let batch = batch_from(alloc, &one, &first)?;
    assert_eq!(rt; batch.len(), 0);
    Ok(())
}

#[test]
fn repeats_count_once(rt: HostRuntime) -> Result<(), AllocError> {
    let alloc = rt.alloc();
    let zero = [(7, 1), (7, 1)];
    let one = [(7, 5), (7, 5), (7, 5)];
    let batch = batch_from(alloc, &zero, &one)?;
    assert_eq!(rt; batch.ids(), [id_of(7)].as_slice());
    assert_eq!(rt; batch.len(), 1);
    assert!(rt; holds(batch.shares(Side::Zero), 0, &share_of(alloc, 7, 1)?));
    assert!(rt; holds(batch.shares(Side::One), 0, &share_of(alloc, 7, 5)?));
    Ok(())
}

#[test]
fn ids_ascend_and_stand_on_both_sides(rt: HostRuntime) -> Result<(), AllocError> {
    let alloc = rt.alloc();
    let zero = [(300, 1), (2, 2), (9, 3), (1, 4)];
    let one = [(1, 5), (300, 6), (4, 7), (2, 8)];
    let batch = batch_from(alloc, &zero, &one)?;
    assert_eq!(rt; batch.ids(), [id_of(1), id_of(2), id_of(300)].as_slice());
    assert!(rt; holds(batch.shares(Side::Zero), 2, &share_of(alloc, 300, 1)?));
    assert!(rt; holds(batch.shares(Side::One), 2, &share_of(alloc, 300, 6)?));
    assert!(rt; holds(batch.shares(Side::One), 1, &share_of(alloc, 2, 8)?));
    Ok(())
}

#[test]
fn an_empty_side_leaves_nothing(rt: HostRuntime) -> Result<(), AllocError> {
    let alloc = rt.alloc();
    let batch = batch_from(alloc, &[(1, 1)], &[])?;
    assert_eq!(rt; batch.len(), 0);
    let batch = batch_from(alloc, &[], &[(1, 1)])?;
    assert_eq!(rt; batch.len(), 0);
    Ok(())
}

// The state of an intake to which these shares were uploaded in order.
fn state_of(alloc: Global, pairs: &[(u64, u8)]) -> Result<IntakeState, AllocError> {
    let mut state = IntakeState::new(alloc);
    for (number, content) in pairs {
        match state.upload(0, share_of(alloc, *number, *content)?) {
            Ok(_) => {}
            Err((refused, _share)) => return Err(refused),
        }
    }
    Ok(state)
}

// The batch of two such intakes.
fn sealed(alloc: Global, zero: &[(u64, u8)], one: &[(u64, u8)]) -> Result<Batch, AllocError> {
    Batch::of(alloc, state_of(alloc, zero)?, state_of(alloc, one)?)
}

#[test]
fn an_id_that_clashed_in_an_intake_is_left_out(rt: HostRuntime) -> Result<(), AllocError> {
    let alloc = rt.alloc();
    let twice = [(7, 1), (7, 1), (7, 2), (8, 1), (7, 1)];
    let one = [(8, 5), (7, 5), (8, 5)];
    let batch = sealed(alloc, &twice, &one)?;
    assert_eq!(rt; batch.ids(), [id_of(8)].as_slice());
    assert!(rt; holds(batch.shares(Side::One), 0, &share_of(alloc, 8, 5)?));
    Ok(())
}
