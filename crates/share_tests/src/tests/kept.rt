//! What no clause says of kept nodes: of which reports and prefixes there are some, and when none are kept.
//! Each that is there is compared with the evaluation from the root.

ghost use Rattle.std.specs.Prelude.{◌≡◌, ◌<◌, ◌≤◌, length, IsTrue};
ghost use Rattle.std.specs.List.{All};

use crate::tests::caches::share_of;
use idpf_eval::{Node, Share, eval_uncounted};
use kept_nodes::KeptNodes;
use prefix_bits::{Prefix, Side};
use std::alloc::Global;
use std::sync::Wait;
use std::test::Fail;
use std::thread::Threads;

/// The first bits of a number, at most 8, the lowest first.
fn prefix_of(number: u8, bits: u16) -> Prefix
    ensures { length result ≤ 8 }
{
    let mut prefix = Prefix::empty();
    for place in 0..bits.min(8) {
        prefix = prefix.child(number >> place & 1 == 1);
    }
    prefix
}

/// Whether all prefixes have so many bits.
fn have_bits(level: u16, prefixes: &[Prefix]) -> bool
    ensures { IsTrue result → All (λ q. length q ≡ level) prefixes.now }
{
    for k in 0..prefixes.len() {
        let prefix = &prefixes[k];
        if prefix.len() != level {
            return false;
        }
    }
    true
}

/// Whether all places are below that number.
fn are_places(count: usize, live: &[u32]) -> bool
    ensures { IsTrue result → All (λ i. i < count) live.now }
{
    for k in 0..live.len() {
        if live[k] as usize >= count {
            return false;
        }
    }
    true
}

/// Whether all shares have so many levels.
fn reach(level: u16, shares: &[Share]) -> bool
    ensures { IsTrue result → All (λ s. level ≤ length s.levels) shares.now }
{
    for k in 0..shares.len() {
        let share = &shares[k];
        if share.levels.len() < usize::from(level) {
            return false;
        }
    }
    true
}

/// What is kept for a level, made by so many threads; nothing, where it can't be asked for.
fn next_of<'a, R: Threads + Wait + Sync>(
    rt: &R,
    alloc: Global,
    threads: u32,
    before: &KeptNodes<'a>,
    level: u16,
    candidates: &[Prefix],
    live: &[u32],
    entries: u64,
) -> KeptNodes<'a> {
    let shares = before.shares();
    if threads < 1
        || level < 2
        || !have_bits(level, candidates)
        || !are_places(shares.len(), live)
        || !reach(level, shares)
    {
        return KeptNodes::none(alloc, shares, before.side());
    }
    before.next(rt, alloc, level, candidates, live, entries, threads)
}

/// The node of a share of side 1, by the evaluation from the root.
fn evaluated(share: &Share, prefix: &Prefix) -> Option<Node> {
    if usize::from(prefix.len()) > share.levels.len() {
        return None;
    }
    Some(eval_uncounted(share, Side::One, prefix))
}

/// Whether there is a node, and it is that of the evaluation.
fn has(kept: &KeptNodes<'_>, report: u32, prefix: &Prefix) -> bool {
    let Some(share) = kept.shares().get(report as usize) else {
        return false;
    };
    let node = kept.node(report, prefix);
    node.is_some() && node == evaluated(share, prefix)
}

/// Both children of two prefixes.
fn children(first: &Prefix, second: &Prefix) -> [Prefix; 4]
    requires first { length first.now ≤ 8 }
    requires second { length second.now ≤ 8 }
{
    [
        first.child(false),
        first.child(true),
        second.child(false),
        second.child(true),
    ]
}

#[test]
fn the_nodes_of_the_live_reports_are_kept(rt: HostRuntime) -> Result<(), Fail> {
    let alloc = rt.alloc();
    let shares = [
        share_of(alloc, 3)?,
        share_of(alloc, 5)?,
        share_of(alloc, 7)?,
    ];
    let none = KeptNodes::none(alloc, &shares, Side::One);
    let (first, second) = (prefix_of(0, 2), prefix_of(2, 2));
    let candidates = children(&first, &second);
    let kept = next_of(&rt, alloc, 1, &none, 3, &candidates, &[0, 2], 0);
    assert!(rt; has(&kept, 0, &first));
    assert!(rt; has(&kept, 0, &second));
    assert!(rt; has(&kept, 2, &first));
    assert!(rt; has(&kept, 2, &second));
    assert!(rt; kept.node(1, &first).is_none());
    assert!(rt; kept.node(0, &prefix_of(1, 2)).is_none());
    assert!(rt; kept.node(0, &first.child(false)).is_none());
    assert!(rt; kept.node(0, &prefix_of(0, 1)).is_none());
    Ok(())
}

#[test]
fn the_next_level_is_made_from_the_one_before(rt: HostRuntime) -> Result<(), Fail> {
    let alloc = rt.alloc();
    let shares = [
        share_of(alloc, 3)?,
        share_of(alloc, 5)?,
        share_of(alloc, 7)?,
    ];
    let none = KeptNodes::none(alloc, &shares, Side::One);
    let (first, second) = (prefix_of(0, 2), prefix_of(2, 2));
    let kept = next_of(
        &rt,
        alloc,
        2,
        &none,
        3,
        &children(&first, &second),
        &[0, 1, 2],
        0,
    );
    // one prefix follows from what was kept, and the other one does not
    let (third, fourth) = (prefix_of(4, 3), prefix_of(5, 3));
    let next = next_of(
        &rt,
        alloc,
        3,
        &kept,
        4,
        &children(&third, &fourth),
        &[1, 2],
        0,
    );
    assert!(rt; has(&next, 1, &third));
    assert!(rt; has(&next, 1, &fourth));
    assert!(rt; has(&next, 2, &third));
    assert!(rt; has(&next, 2, &fourth));
    assert!(rt; next.node(0, &third).is_none());
    assert!(rt; next.node(1, &second).is_none());
    Ok(())
}

#[test]
fn nothing_is_kept_where_the_cache_has_room(rt: HostRuntime) -> Result<(), Fail> {
    let alloc = rt.alloc();
    let shares = [share_of(alloc, 3)?, share_of(alloc, 5)?];
    let none = KeptNodes::none(alloc, &shares, Side::One);
    let (first, second) = (prefix_of(0, 2), prefix_of(2, 2));
    let candidates = children(&first, &second);
    let less = next_of(&rt, alloc, 1, &none, 3, &candidates, &[0, 1], 15);
    assert!(rt; has(&less, 1, &second));
    let enough = next_of(&rt, alloc, 1, &none, 3, &candidates, &[0, 1], 16);
    assert!(rt; enough.node(1, &second).is_none());
    Ok(())
}

#[test]
fn any_number_of_threads_keeps_the_same(rt: HostRuntime) -> Result<(), Fail> {
    let alloc = rt.alloc();
    let shares = [
        share_of(alloc, 3)?,
        share_of(alloc, 5)?,
        share_of(alloc, 7)?,
    ];
    let none = KeptNodes::none(alloc, &shares, Side::One);
    let (first, second) = (prefix_of(0, 2), prefix_of(2, 2));
    let candidates = children(&first, &second);
    for threads in 1..=5 {
        let kept = next_of(&rt, alloc, threads, &none, 3, &candidates, &[0, 1, 2], 0);
        for report in 0..3 {
            assert!(rt; has(&kept, report, &first));
            assert!(rt; has(&kept, report, &second));
        }
    }
    Ok(())
}
