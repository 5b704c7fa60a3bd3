//! The totals that each side sends.
//! Crews add them up; then they are copied out of the finished phases.

ghost use Rattle.std.specs.Prelude.{◌≡◌, ◌≤◌, IfOk};
ghost use Rattle.definitions.specs.declared.Side.TheVariants.{Zero, One};
ghost use Rattle.phase_state.specs.declared.kind.Kind.TheVariants.{Totals};
ghost use Rattle.phase_state.specs.Sums.{IsPhasePlan};
ghost use Rattle.phase_sums.specs.Caches.{AreCaches};
ghost use Rattle.phase_sums.specs.SideSums.{live_totals};

use crate::caches::{CacheHold, Caches};
use crate::running::both_phases;
use field64::Fe;
use phase_state::PhasePlan;
use shelf_io::Gate;
use std::alloc::{AllocError, Global};
use std::sync::Wait;
use std::thread::Threads;

/// Both sides' totals of a level, of the plan of each side: one for each candidate in order, over all live reports. Workers, caches
/// and gate are as in [`both_sums`](crate::both_sums). `AllocError` is want of memory.
pub fn both_totals<'s, R: Threads + Wait + Sync, G: Gate>(
    rt: &R,
    alloc: Global,
    zero: &PhasePlan<'_>,
    one: &PhasePlan<'_>,
    workers: u32,
    caches: &Caches<'s>,
    hold: &mut CacheHold<'s>,
    gate: &G,
) -> Result<(Vec<Fe>, Vec<Fe>), AllocError>
    requires count { (1 ≤ workers) × (workers ≤ 64) }
    requires zero { IsPhasePlan zero.now }
    requires one { IsPhasePlan one.now }
    requires kinds { (zero.now.kind ≡ Totals) × (one.now.kind ≡ Totals) }
    requires sides { (zero.now.side ≡ Zero) × (one.now.side ≡ One) }
    requires caches { AreCaches zero.now.shares one.now.shares workers caches.now hold.old }
    ensures zero { IfOk result (λ totals. totals.0.items ≡ live_totals zero.now) }
    ensures one { IfOk result (λ totals. totals.1.items ≡ live_totals one.now) }
    ensures caches { IfOk result (λ totals. AreCaches zero.now.shares one.now.shares workers caches.now hold.new) }
{
    let (zeros, ones) = both_phases(rt, alloc, zero, one, workers, caches, hold, gate)?;
    let mut totals0 = Vec::new(alloc);
    totals0.extend_from_slice(zeros.totals())?;
    let mut totals1 = Vec::new(alloc);
    totals1.extend_from_slice(ones.totals())?;
    Ok((totals0, totals1))
}
