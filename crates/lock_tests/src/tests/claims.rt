//! What no clause says: that the calls succeed, and that threads draw at once.
//! The plans and the claims of two drawers are worked by hand; each of four threads draws until its None.
ghost use Rattle.std.specs.Prelude.{◌≡◌, false, IfOk};

use std::alloc::{AllocError, Global};
use std::sync::Wait;
use std::test::Fail;
use std::thread::{Threads, join};
use tile_claims::{Claims, Drawer, Tile, TilePlan};

#[test]
fn five_reports_by_four_candidates(rt: HostRuntime) {
    let plan = TilePlan::new(5, 4, 2, 3);
    assert_eq!(rt; plan.blocks(), 2);
    assert_eq!(rt; plan.tiles(), 6);
    let first = Tile {
        r0: 0,
        r1: 2,
        c0: 0,
        c1: 3,
    };
    let last = Tile {
        r0: 4,
        r1: 5,
        c0: 3,
        c1: 4,
    };
    assert_eq!(rt; plan.tile(0), first);
    assert_eq!(rt; plan.tile(5), last);
}

#[test]
fn no_reports(rt: HostRuntime) {
    assert_eq!(rt; TilePlan::new(0, 4, 2, 3).tiles(), 0);
}

#[test]
fn three_numbers_for_two_drawers(rt: HostRuntime) -> Result<(), Fail> {
    let (claims, mut drawers) = Claims::new(rt.alloc(), 3, 2)?;
    let Some(mut second) = drawers.pop() else {
        unreachable!()
    };
    let Some(mut first) = drawers.pop() else {
        unreachable!()
    };
    assert_eq!(rt; first.number(), 0);
    assert_eq!(rt; second.number(), 1);
    let drawn = claims.claim(&mut first);
    assert!(rt; drawn == Some(0));
    let drawn = claims.claim(&mut second);
    assert!(rt; drawn == Some(1));
    let drawn = claims.claim(&mut first);
    assert!(rt; drawn == Some(2));
    let drawn = claims.claim(&mut first);
    assert!(rt; drawn == None);
    let drawn = claims.claim(&mut second);
    assert!(rt; drawn == None);
    drawers.push_reserved(first);
    drawers.push_reserved(second);
    assert_eq!(rt; claims.close(drawers), 5);
    Ok(())
}

const TILES: u32 = 10_000;

/// A drawer, and what it was answered, with room for every tile.
#[derive(Drop)]
struct Hand {
    drawer: Drawer,
    got: Vec<u32>,
}

// Draws until there is no more.
fn draw_all<R: Wait>(rt: &R, claims: &Claims, hand: Hand) -> Hand
    requires { (hand.drawer.claims ≡ claims.now.id) × (hand.drawer.had_none ≡ false) }
    ensures { result.drawer.claims ≡ claims.now.id }
{
    let Hand {
        mut drawer,
        mut got,
    } = hand;
    for _ in rt.forever() {
        let Some(number) = claims.claim(&mut drawer) else {
            return Hand { drawer, got };
        };
        if got.len() < got.capacity() {
            got.push_reserved(number);
        }
    }
    unreachable!()
}

// Two threads draw at once.
fn draw_two<R: Threads + Wait + Sync>(rt: &R, claims: &Claims, one: Hand, two: Hand) -> (Hand, Hand)
    requires one { (one.drawer.claims ≡ claims.now.id) × (one.drawer.had_none ≡ false) }
    requires two { (two.drawer.claims ≡ claims.now.id) × (two.drawer.had_none ≡ false) }
    ensures one { result.0.drawer.claims ≡ claims.now.id }
    ensures two { result.1.drawer.claims ≡ claims.now.id }
{
    join(
        rt,
        || -> Hand
            requires { (one.drawer.claims ≡ claims.now.id) × (one.drawer.had_none ≡ false) }
            ensures { result.drawer.claims ≡ claims.entry.now.id }
        { draw_all(rt, claims, one) },
        || -> Hand
            requires { (two.drawer.claims ≡ claims.now.id) × (two.drawer.had_none ≡ false) }
            ensures { result.drawer.claims ≡ claims.entry.now.id }
        { draw_all(rt, claims, two) },
    )
}

// Four threads draw at once.
fn draw_four<R: Threads + Wait + Sync>(
    rt: &R,
    claims: &Claims,
    left: (Hand, Hand),
    right: (Hand, Hand),
) -> ((Hand, Hand), (Hand, Hand))
    requires left { (left.0.drawer.claims ≡ claims.now.id) × (left.0.drawer.had_none ≡ false)
        × (left.1.drawer.claims ≡ claims.now.id) × (left.1.drawer.had_none ≡ false) }
    requires right { (right.0.drawer.claims ≡ claims.now.id) × (right.0.drawer.had_none ≡ false)
        × (right.1.drawer.claims ≡ claims.now.id) × (right.1.drawer.had_none ≡ false) }
    ensures left { (result.0.0.drawer.claims ≡ claims.now.id)
        × (result.0.1.drawer.claims ≡ claims.now.id) }
    ensures right { (result.1.0.drawer.claims ≡ claims.now.id)
        × (result.1.1.drawer.claims ≡ claims.now.id) }
{
    join(
        rt,
        || -> (Hand, Hand)
            requires { (left.0.drawer.claims ≡ claims.now.id)
                × (left.0.drawer.had_none ≡ false) × (left.1.drawer.claims ≡ claims.now.id)
                × (left.1.drawer.had_none ≡ false) }
            ensures { (result.0.drawer.claims ≡ claims.entry.now.id)
                × (result.1.drawer.claims ≡ claims.entry.now.id) }
        { draw_two(rt, claims, left.0, left.1) },
        || -> (Hand, Hand)
            requires { (right.0.drawer.claims ≡ claims.now.id)
                × (right.0.drawer.had_none ≡ false) × (right.1.drawer.claims ≡ claims.now.id)
                × (right.1.drawer.had_none ≡ false) }
            ensures { (result.0.drawer.claims ≡ claims.entry.now.id)
                × (result.1.drawer.claims ≡ claims.entry.now.id) }
        { draw_two(rt, claims, right.0, right.1) },
    )
}

// The drawer, with room for every tile.
fn hand_of(alloc: Global, drawer: Drawer) -> Result<Hand, AllocError>
    ensures { IfOk result (λ hand. hand.drawer ≡ drawer) }
{
    let got = Vec::with_capacity(alloc, TILES as usize)?;
    Ok(Hand { drawer, got })
}

// Four drawers draw at once. The word at the end, and all that the drawers were answered.
fn drawn_by_four<R: Threads + Wait + Sync>(
    rt: &R,
    alloc: Global,
) -> Result<(u64, Vec<u32>), AllocError> {
    let (claims, mut drawers) = Claims::new(alloc, TILES, 4)?;
    let Some(fourth) = drawers.pop() else {
        unreachable!()
    };
    let Some(third) = drawers.pop() else {
        unreachable!()
    };
    let Some(second) = drawers.pop() else {
        unreachable!()
    };
    let Some(first) = drawers.pop() else {
        unreachable!()
    };
    let left = (hand_of(alloc, first)?, hand_of(alloc, second)?);
    let right = (hand_of(alloc, third)?, hand_of(alloc, fourth)?);
    let (left, right) = draw_four(rt, &claims, left, right);
    let (first, second) = left;
    let (third, fourth) = right;
    let mut all = first.got;
    all.extend_from_slice(&second.got)?;
    all.extend_from_slice(&third.got)?;
    all.extend_from_slice(&fourth.got)?;
    drawers.push_reserved(first.drawer);
    drawers.push_reserved(second.drawer);
    drawers.push_reserved(third.drawer);
    drawers.push_reserved(fourth.drawer);
    Ok((claims.close(drawers), all))
}

#[test]
fn four_threads_draw_each_tile_once(rt: HostRuntime) -> Result<(), Fail> {
    let (word, mut numbers) = drawn_by_four(&rt, rt.alloc())?;
    numbers.sort_unstable();
    assert_eq!(rt; word, 10_004);
    assert_eq!(rt; numbers.len(), 10_000);
    assert!(rt; numbers.iter().copied().eq(0..TILES));
    Ok(())
}
