//! Both phases of a level's part, run at once.
//! The crews take all memory beforehand.

ghost use Rattle.std.specs.Prelude.{◌≡◌, ◌≤◌, IfOk};
ghost use Rattle.definitions.specs.declared.Side.TheVariants.{Zero, One};
ghost use Rattle.phase_state.specs.Sums.{IsPhasePlan};
ghost use Rattle.phase_sums.specs.Caches.{AreCaches};
ghost use Rattle.phase_sums.specs.SideSums.{IsWhole};

use crate::caches::{CacheHold, Caches};
use level_totals::Finished;
use phase_state::PhasePlan;
use phase_workers::{Crew, Phase, run_both};
use shelf_io::Gate;
use std::alloc::{AllocError, Global};
use std::mem;
use std::sync::Wait;
use std::thread::Threads;

/// Runs the phases of two plans at once, each by a crew of so many workers that evaluate through their side's cache. The
/// passes come back in `hold`. `AllocError` is want of memory; then nothing was run, and the passes are gone.
pub(crate) fn both_phases<'p, 's, R: Threads + Wait + Sync, G: Gate>(
    rt: &R,
    alloc: Global,
    zero: &PhasePlan<'p>,
    one: &PhasePlan<'p>,
    workers: u32,
    caches: &'p Caches<'s>,
    hold: &mut CacheHold<'s>,
    gate: &G,
) -> Result<(Finished<'p>, Finished<'p>), AllocError>
    requires count { (1 ≤ workers) × (workers ≤ 64) }
    requires zero { IsPhasePlan zero.now }
    requires one { IsPhasePlan one.now }
    requires sides { (zero.now.side ≡ Zero) × (one.now.side ≡ One) }
    requires caches { AreCaches zero.now.shares one.now.shares workers caches.now hold.old }
    ensures zero { IfOk result (λ finished. IsWhole zero.now finished.0) }
    ensures one { IfOk result (λ finished. IsWhole one.now finished.1) }
    ensures caches { IfOk result (λ finished. AreCaches zero.now.shares one.now.shares workers caches.now hold.new) }
{
    let passes0 = mem::replace(&mut hold.zero, Vec::new(alloc));
    let passes1 = mem::replace(&mut hold.one, Vec::new(alloc));
    let zeros = Crew::new(alloc, zero.copy(), &caches.zero, passes0, workers)?;
    let ones = Crew::new(alloc, one.copy(), &caches.one, passes1, workers)?;
    let (zeros, ones) = run_both(rt, zeros, ones, gate);
    let Phase {
        done: _,
        finished: finished0,
        passes: passes0,
    } = zeros;
    let Phase {
        done: _,
        finished: finished1,
        passes: passes1,
    } = ones;
    hold.zero = passes0;
    hold.one = passes1;
    Ok((finished0, finished1))
}
