//! Phases of 3 reports by 8 candidates by crews of 1 to 64 workers, in tiles of all sizes, under drills and a hold.
//! What is swept follows from the drill. A phase leaves the nodes that it made in its cache.

ghost use Rattle.phase_workers.specs.Seen.{ArePasses};

use crate::{Cut, Trial, plan_of};
use definitions::Side;
use eval_cache::{CachePass, EvalCache};
use field64::Fe;
use gates::{DrillGate, Hold, HoldGate};
use idpf_eval::Node;
use phase_state::Kind;
use phase_workers::{Crew, Phase, run_phase};
use prefix_bits::Prefix;
use shelf_io::OpenGate;
use std::alloc::AllocError;
use std::sync::Wait;

#[test]
fn drills_and_workers(rt: HostRuntime) -> Result<(), AllocError> {
    let trial = Trial::new(rt.alloc(), 3, 8)?;
    for (n, workers, swept) in [(0, 1, 0), (1, 2, 6), (2, 7, 3), (3, 64, 2)] {
        let made = plan_of(&trial, Side::One, Kind::Totals, Cut::Small);
        assert!(rt; made.is_some());
        let Some(plan) = made else { return Ok(()) };
        let shares = trial.shares.as_slice();
        let (cache, passes) = EvalCache::new(rt.alloc(), shares, Side::One, 16, 4, workers + 1)?;
        let crew = Crew::new(rt.alloc(), plan, &cache, passes, workers)?;
        let gate = DrillGate {
            n,
            inner: &OpenGate,
        };
        let phase = run_phase(&rt, crew, &gate);
        assert_eq!(rt; phase.done.tiles, 6);
        assert_eq!(rt; phase.done.swept, swept);
        assert!(rt; trial.has_totals(Side::One, phase.finished.totals()));
    }
    Ok(())
}

#[test]
fn sums_in_tiles_of_all_sizes(rt: HostRuntime) -> Result<(), AllocError> {
    let trial = Trial::new(rt.alloc(), 3, 8)?;
    for (cut, workers, tiles) in [
        (Cut::Single, 4, 24),
        (Cut::Small, 1, 6),
        (Cut::Small, 4, 6),
        (Cut::Large, 4, 1),
    ] {
        let made = plan_of(&trial, Side::Zero, Kind::Sketch, cut);
        assert!(rt; made.is_some());
        let Some(plan) = made else { return Ok(()) };
        let shares = trial.shares.as_slice();
        let (cache, passes) = EvalCache::new(rt.alloc(), shares, Side::Zero, 2, 4, workers + 1)?;
        let crew = Crew::new(rt.alloc(), plan, &cache, passes, workers)?;
        let phase = run_phase(&rt, crew, &OpenGate);
        assert_eq!(rt; phase.done.tiles, tiles);
        assert!(rt; trial.has_sums(Side::Zero, phase.finished.sums()));
    }
    Ok(())
}

#[test]
fn a_phase_without_reports(rt: HostRuntime) -> Result<(), AllocError> {
    let trial = Trial::new(rt.alloc(), 0, 8)?;
    let made = plan_of(&trial, Side::Zero, Kind::Totals, Cut::Small);
    assert!(rt; made.is_some());
    let Some(plan) = made else { return Ok(()) };
    let shares = trial.shares.as_slice();
    let (cache, passes) = EvalCache::new(rt.alloc(), shares, Side::Zero, 16, 4, 3)?;
    let crew = Crew::new(rt.alloc(), plan, &cache, passes, 2)?;
    let phase = run_phase(&rt, crew, &OpenGate);
    assert_eq!(rt; phase.done.tiles, 0);
    assert_eq!(rt; phase.done.swept, 0);
    let totals = phase.finished.totals();
    assert_eq!(rt; totals.len(), 8);
    assert!(rt; totals.iter().all(|total| *total == Fe::zero()));
    Ok(())
}

#[test]
fn two_workers_meet(rt: HostRuntime) -> Result<(), AllocError> {
    let trial = Trial::new(rt.alloc(), 3, 8)?;
    let made = plan_of(&trial, Side::Zero, Kind::Totals, Cut::Small);
    assert!(rt; made.is_some());
    let Some(plan) = made else { return Ok(()) };
    let shares = trial.shares.as_slice();
    let (cache, passes) = EvalCache::new(rt.alloc(), shares, Side::Zero, 16, 4, 3)?;
    let crew = Crew::new(rt.alloc(), plan, &cache, passes, 2)?;
    let gate = HoldGate::new(Side::Zero, Hold::Tile);
    let phase = run_phase(&rt, crew, &gate);
    assert!(rt; gate.asked());
    assert!(rt; gate.met());
    assert_eq!(rt; phase.done.swept, 0);
    Ok(())
}

// What a cache has of report 0 at two prefixes, looked up with the last of its passes.
fn found_with<'s, R: Wait>(
    rt: &R,
    cache: &EvalCache<'s>,
    passes: Vec<CachePass<'s>>,
    prefixes: &[Prefix; 2],
) -> [Option<Node>; 2]
    requires { ArePasses cache.now.locks passes.items }
{
    let mut passes = passes;
    let mut into = [None, None];
    if let Some(pass) = passes.pop() {
        cache.gather(rt, pass, 0, prefixes, &mut into);
    }
    into
}

#[test]
fn cache_is_used(rt: HostRuntime) -> Result<(), AllocError> {
    let trial = Trial::at_the_first_level(rt.alloc())?;
    let made = plan_of(&trial, Side::Zero, Kind::Sketch, Cut::Large);
    assert!(rt; made.is_some());
    let Some(plan) = made else { return Ok(()) };
    let shares = trial.shares.as_slice();
    let (cache, passes) = EvalCache::new(rt.alloc(), shares, Side::Zero, 16, 16, 2)?;
    let crew = Crew::new(rt.alloc(), plan, &cache, passes, 1)?;
    let Phase {
        done,
        finished,
        passes,
    } = run_phase(&rt, crew, &OpenGate);
    assert_eq!(rt; done.tiles, 1);
    assert!(rt; trial.has_sums(Side::Zero, finished.sums()));
    let (first, second) = (Prefix::empty().child(false), Prefix::empty().child(true));
    let [found0, found1] = found_with(&rt, &cache, passes, &[first, second]);
    assert!(rt; found0.is_some() && found1.is_some());
    assert!(rt; found0 == trial.first_node(Side::Zero, &first));
    assert!(rt; found1 == trial.first_node(Side::Zero, &second));
    Ok(())
}
