//! The sums of the check that each side sends.
//! Crews add them up; then the caller's thread hides them by each share's part of the correlation.

ghost use Rattle.std.specs.Prelude.{◌≡◌, ◌<◌, ◌≤◌, IfOk, length};
ghost use Rattle.std.specs.List.{All};
ghost use Rattle.definitions.specs.declared.Side.TheVariants.{Zero, One};
ghost use Rattle.phase_state.specs.declared.kind.Kind.TheVariants.{Sketch};
ghost use Rattle.phase_state.specs.Sums.{IsPhasePlan, plain_sums};
ghost use Rattle.phase_sums.specs.Caches.{AreCaches};
ghost use Rattle.phase_sums.specs.SideSums.{hidden_sums};

use crate::caches::{CacheHold, Caches};
use crate::running::both_phases;
use phase_state::PhasePlan;
use shelf_io::Gate;
use sketch_check::{Sums, correlation, masked};
use std::alloc::{AllocError, Global};
use std::sync::Wait;
use std::thread::Threads;

/// Both sides' sums of a level, hidden, of the plan of each side: one for each live report in order, over all candidates. Each
/// side has 1 to 64 workers, and both work at once, through the caches; the gate decides which tiles the workers leave to the
/// sweep. The sums depend on none of these. `hold` has the passes of the caches before and after. `AllocError` is want of
/// memory; then the passes are gone.
pub fn both_sums<'s, R: Threads + Wait + Sync, G: Gate>(
    rt: &R,
    alloc: Global,
    zero: &PhasePlan<'_>,
    one: &PhasePlan<'_>,
    workers: u32,
    caches: &Caches<'s>,
    hold: &mut CacheHold<'s>,
    gate: &G,
) -> Result<(Vec<Sums>, Vec<Sums>), AllocError>
    requires count { (1 ≤ workers) × (workers ≤ 64) }
    requires zero { IsPhasePlan zero.now }
    requires one { IsPhasePlan one.now }
    requires kinds { (zero.now.kind ≡ Sketch) × (one.now.kind ≡ Sketch) }
    requires sides { (zero.now.side ≡ Zero) × (one.now.side ≡ One) }
    requires caches { AreCaches zero.now.shares one.now.shares workers caches.now hold.old }
    ensures zero { IfOk result (λ sums. sums.0.items ≡ hidden_sums zero.now) }
    ensures one { IfOk result (λ sums. sums.1.items ≡ hidden_sums one.now) }
    ensures caches { IfOk result (λ sums. AreCaches zero.now.shares one.now.shares workers caches.now hold.new) }
{
    let (zeros, ones) = both_phases(rt, alloc, zero, one, workers, caches, hold, gate)?;
    let sums0 = hidden(alloc, zero, zeros.sums())?;
    let sums1 = hidden(alloc, one, ones.sums())?;
    Ok((sums0, sums1))
}

/// The plain sums of a plan's phase, each hidden by its share's part of the correlation.
fn hidden(alloc: Global, plan: &PhasePlan<'_>, sums: &[Sums]) -> Result<Vec<Sums>, AllocError>
    requires places { All (λ i. i < length plan.now.shares) plan.now.live }
    requires plain { sums.now ≡ plain_sums plan.now }
    requires count { length sums.now ≡ length plan.now.live }
    ensures hidden { IfOk result (λ hidden. hidden.items ≡ hidden_sums plan.now) }
{
    let mut hidden = Vec::with_capacity(alloc, sums.len())?;
    for (k, place) in plan.live.iter().enumerate() {
        let share = &plan.shares[*place as usize];
        hidden.push(masked(&sums[k], &correlation(&share.corr, plan.level)))?;
    }
    Ok(hidden)
}
