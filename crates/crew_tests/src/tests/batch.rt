//! A Sketch phase of level 1 over the batch of three strings, all of whose claims are abandoned: the sweep posts every tile.
//! The tiles are counted by hand for three reports and two candidates.

use crate::{Cut, Trial, plan_of};
use definitions::Side;
use eval_cache::EvalCache;
use gates::DrillGate;
use phase_state::Kind;
use phase_workers::{Crew, run_phase};
use shelf_io::OpenGate;
use std::alloc::AllocError;

#[test]
fn the_sweep_posts_every_tile(rt: HostRuntime) -> Result<(), AllocError> {
    for side in [Side::Zero, Side::One] {
        let trial = Trial::of_three_strings(rt.alloc(), side)?;
        assert_eq!(rt; trial.shares.len(), 3);
        for (cut, workers, tiles) in [(Cut::Large, 4, 1), (Cut::Small, 2, 2), (Cut::Single, 1, 6)] {
            let made = plan_of(&trial, side, Kind::Sketch, cut);
            assert!(rt; made.is_some());
            let Some(plan) = made else { return Ok(()) };
            let shares = trial.shares.as_slice();
            let (cache, passes) = EvalCache::new(rt.alloc(), shares, side, 16, 4, workers + 1)?;
            let crew = Crew::new(rt.alloc(), plan, &cache, passes, workers)?;
            let gate = DrillGate {
                n: 1,
                inner: &OpenGate,
            };
            let phase = run_phase(&rt, crew, &gate);
            assert_eq!(rt; phase.done.tiles, tiles);
            assert_eq!(rt; phase.done.swept, phase.done.tiles);
            assert!(rt; trial.has_sums(side, phase.finished.sums()));
        }
    }
    Ok(())
}
