//! Four threads that use one cache of 16 shards at once, each at all reports. Each node that comes is compared with the
//! evaluation from the root. No shard is ever full, so that a thread finds again what it offered.

ghost use Rattle.std.specs.Prelude.{◌≡◌, ◌<◌, length, IfOk};
ghost use Rattle.definitions.specs.declared.Side.TheVariants.{Zero};

use crate::tests::caches::share_of;
use eval_cache::{CachePass, EvalCache};
use idpf_eval::{Node, Share, eval_uncounted};
use prefix_bits::{Prefix, Side};
use std::alloc::{AllocError, Global};
use std::sync::Wait;
use std::test::Fail;
use std::thread::{Threads, join};

/// Two reports in each of 16 shards.
const REPORTS: u32 = 32;

/// A thread's pass, and how many nodes it has found, right and wrong.
#[derive(Drop)]
struct Worker<'t, 'a> {
    cache: &'t EvalCache<'a>,
    shares: &'a [Share],
    pass: CachePass<'a>,
    right: u32,
    wrong: u32,
    ghost fits: { pass ≡ cache.now.locks },
    ghost side: { cache.now.side ≡ Zero },
    ghost same: { cache.now.shares ≡ shares.now },
    ghost all: { length shares.now ≡ 32 },
}

// Counts what was found, as right or wrong.
fn count(found: Option<Node>, node: &Node, right: &mut u32, wrong: &mut u32) {
    if let Some(found) = found {
        if found == *node {
            *right = right.saturating_add(1);
        } else {
            *wrong = wrong.saturating_add(1);
        }
    }
}

// Looks two prefixes of a report up, compares what is found, and offers both nodes.
fn visit<'t, 'a, R: Wait>(rt: &R, worker: Worker<'t, 'a>, report: u32) -> Worker<'t, 'a>
    requires { report < 32 }
{
    let Worker {
        cache,
        shares,
        pass,
        mut right,
        mut wrong,
    } = worker;
    let share = &shares[report as usize];
    let _levels = share.levels.len();
    let short = Prefix::empty().child(true);
    let long = short.child(false);
    let at_short = eval_uncounted(share, Side::Zero, &short);
    let at_long = eval_uncounted(share, Side::Zero, &long);
    let prefixes = [short, long];
    let mut into = [None, None];
    let pass = cache.gather(rt, pass, report, &prefixes, &mut into);
    count(into[0], &at_short, &mut right, &mut wrong);
    count(into[1], &at_long, &mut right, &mut wrong);
    let nodes = [at_short, at_long];
    let pass = cache.scatter(rt, pass, report, &prefixes, &nodes);
    Worker {
        cache,
        shares,
        pass,
        right,
        wrong,
    }
}

// Visits all reports, so many times.
fn work<'t, 'a, R: Wait>(rt: &R, mut worker: Worker<'t, 'a>, rounds: u32) -> Worker<'t, 'a> {
    for _ in 0..rounds {
        for report in 0..REPORTS {
            worker = visit(rt, worker, report);
        }
    }
    worker
}

/// Two workers.
#[derive(Drop)]
struct Team<'t, 'a> {
    one: Worker<'t, 'a>,
    two: Worker<'t, 'a>,
}

fn two_work<'t, 'a, R: Threads + Wait + Sync>(
    rt: &R,
    team: Team<'t, 'a>,
    rounds: u32,
) -> Team<'t, 'a> {
    let Team { one, two } = team;
    let (one, two) = join(rt, || work(rt, one, rounds), || work(rt, two, rounds));
    Team { one, two }
}

fn all_work<'t, 'a, R: Threads + Wait + Sync>(
    rt: &R,
    low: Team<'t, 'a>,
    high: Team<'t, 'a>,
    rounds: u32,
) -> (Team<'t, 'a>, Team<'t, 'a>) {
    join(
        rt,
        || two_work(rt, low, rounds),
        || two_work(rt, high, rounds),
    )
}

// How many nodes a team has found, right and wrong.
fn found_by(team: &Team<'_, '_>) -> (u32, u32) {
    (
        team.one.right.saturating_add(team.two.right),
        team.one.wrong.saturating_add(team.two.wrong),
    )
}

// A worker that has found nothing yet.
fn new_worker<'t, 'a>(
    cache: &'t EvalCache<'a>,
    shares: &'a [Share],
    pass: CachePass<'a>,
) -> Worker<'t, 'a>
    requires fits { pass ≡ cache.now.locks }
    requires side { cache.now.side ≡ Zero }
    requires same { cache.now.shares ≡ shares.now }
    requires all { length shares.now ≡ 32 }
{
    Worker {
        cache,
        shares,
        pass,
        right: 0,
        wrong: 0,
    }
}

// The shares of all reports, which differ in their roots.
fn all_shares(alloc: Global) -> Result<Vec<Share>, AllocError>
    ensures { IfOk result (λ shares. length shares.items ≡ 32) }
{
    let mut shares = Vec::with_capacity(alloc, REPORTS as usize)?;
    for root in 0..REPORTS as u8 {
        shares.push_reserved(share_of(alloc, root)?);
    }
    Ok(shares)
}

// So many rounds of four threads: how many nodes were found, right and wrong.
fn meet<R: Threads + Wait + Sync>(
    rt: &R,
    alloc: Global,
    rounds: u32,
) -> Result<(u32, u32), AllocError> {
    let shares = all_shares(alloc)?;
    let all = shares.as_slice();
    let (cache, mut passes) = EvalCache::new(alloc, all, Side::Zero, 16, 8, 4)?;
    let Some(four) = passes.pop() else {
        unreachable!()
    };
    let Some(three) = passes.pop() else {
        unreachable!()
    };
    let Some(two) = passes.pop() else {
        unreachable!()
    };
    let Some(one) = passes.pop() else {
        unreachable!()
    };
    let low = Team {
        one: new_worker(&cache, all, one),
        two: new_worker(&cache, all, two),
    };
    let high = Team {
        one: new_worker(&cache, all, three),
        two: new_worker(&cache, all, four),
    };
    let (low, high) = all_work(rt, low, high, rounds);
    let (low, high) = (found_by(&low), found_by(&high));
    Ok((low.0.saturating_add(high.0), low.1.saturating_add(high.1)))
}

// In its first round a thread may find what others have offered; later it finds all.
#[test]
fn four_threads_find_evaluated_nodes(rt: HostRuntime) -> Result<(), Fail> {
    let (right, wrong) = meet(&rt, rt.alloc(), 40)?;
    assert_eq!(rt; wrong, 0);
    assert!(rt; right >= 4 * 39 * 2 * REPORTS);
    assert!(rt; right <= 4 * 40 * 2 * REPORTS);
    Ok(())
}
