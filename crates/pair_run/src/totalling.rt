//! The third part of a level: both sides send their totals over the reports that passed.
//! Added they are the totals of the candidates.

ghost use Rattle.std.specs.Prelude.{◌≡◌, ◌<◌, ◌≤◌, ◌^◌, length, map, IfOk, IfErr, None};
ghost use Rattle.std.specs.List.{All};
ghost use Rattle.prefix_bits.specs.declared.TheConstants.{MOST_BITS};
ghost use Rattle.definitions.specs.declared.Side.TheVariants.{Zero, One};
ghost use Rattle.definitions.specs.Field.{modulus, add};
ghost use Rattle.walk_definitions.specs.Walk.{own_total};
ghost use Rattle.walk_definitions.specs.Messages.{both_send};
ghost use Rattle.walk_definitions.specs.Heard.{paired};
ghost use Rattle.pair_run.specs.declared.answers.PairError.TheVariants.{Memory};
ghost use Rattle.pair_run.specs.Failures.{end_of, Stops, HasPairCause};
ghost use Rattle.pair_run.specs.Levels.{HaveLevels};
ghost use Rattle.pair_run.specs.Parts.{GoesOn, totalling};
ghost use Rattle.pair_run.specs.Places.{picked};
ghost use Rattle.pair_run.specs.Plans.{HasFewTiles};
ghost use Rattle.pair_run.specs.Ranges.{AreInRange};
ghost use Rattle.pair_run.specs.SideCaches.{HasCaches};
ghost use Rattle.shelf_io.specs.Seen.{link_seen, IsTrueAndIdle};
ghost use Rattle.pair_run.specs.Talking.{Passed, SentMore, SentPart};

use crate::agreement::agreed_sums;
use crate::answers::PairError;
use crate::kind::AddedKind;
use crate::plans::side_plan;
use crate::settings::WalkSettings;
use definitions::Side;
use field64::Fe;
use phase_state::Kind;
use phase_sums::{CacheHold, Caches, both_totals};
use prefix_bits::Prefix;
use report_batch::Batch;
use shelf_io::{Gate, Link};
use std::alloc::Global;
use std::sync::Wait;
use std::thread::Threads;

/// The totals of the candidates over the reports that passed.
pub fn add_totals<'s, R: Threads + Wait + Sync, K: Link, G: Gate>(
    rt: &R,
    alloc: Global,
    link: &mut K,
    settings: &WalkSettings,
    level: u16,
    candidates: &[Prefix],
    batch: &Batch,
    passed: &[u32],
    caches: &Caches<'s>,
    hold: &mut CacheHold<'s>,
    gate: &G,
) -> Result<Vec<Fe>, PairError>
    requires settings { AreInRange MOST_BITS settings.now }
    requires tiles { HasFewTiles settings.now (length batch.now) }
    requires few { length candidates.now ≤ settings.now.cap }
    requires long { All (λ q. length q ≡ level) candidates.now }
    requires levels { HaveLevels level batch.now }
    requires places { All (λ k. k < length batch.now) passed.now }
    requires small { length passed.now < 2 ^ 27 }
    requires within { length passed.now ≤ length batch.now }
    requires caches { HasCaches batch.now settings.now.workers caches.now hold.old }
    ensures caches { IfOk result (λ totals. HasCaches batch.now settings.now.workers caches.now hold.new) }
    ensures count { IfOk result (λ totals. length totals.items ≡ length candidates.now) }
    ensures goes { IfOk result (λ totals. Passed (K.talk link.old) (K.talk link.new)
        (GoesOn (totalling level candidates.now (picked batch.now passed.now)) totals.items)) }
    ensures stops { IfErr result (Stops (totalling level candidates.now (picked batch.now passed.now)) (K.talk link.old) (K.talk link.new)) }
    ensures truly { IfOk result (λ totals. IsTrueAndIdle (link_seen K.Link link.old)
        → let totals0 = map (own_total (picked batch.now passed.now) Zero) candidates.now in
        let totals1 = map (own_total (picked batch.now passed.now) One) candidates.now in
        (totals.items ≡ paired add totals0 totals1) × IsTrueAndIdle (link_seen K.Link link.new)
        × SentMore (K.talk link.old) (K.talk link.new) (both_send 3 level totals0 totals1)) }
    ensures partly { IfErr result (λ e. IsTrueAndIdle (link_seen K.Link link.old)
        → let totals0 = map (own_total (picked batch.now passed.now) Zero) candidates.now in
        let totals1 = map (own_total (picked batch.now passed.now) One) candidates.now in
        (end_of e ≡ None) × SentPart (K.talk link.old) (K.talk link.new) (both_send 3 level totals0 totals1)) }
    ensures cause { HasPairCause (K.faults link.old) (K.faults link.new) result }
{
    let (totals0, totals1) = own_totals(
        rt, alloc, settings, level, candidates, batch, passed, caches, hold, gate,
    )?;
    agreed_sums(alloc, link, AddedKind::Totals, level, &totals0, &totals1)
}

/// Both sides' totals over a batch's reports that passed a level, made by a crew a side at once.
fn own_totals<'s, R: Threads + Wait + Sync, G: Gate>(
    rt: &R,
    alloc: Global,
    settings: &WalkSettings,
    level: u16,
    candidates: &[Prefix],
    batch: &Batch,
    passed: &[u32],
    caches: &Caches<'s>,
    hold: &mut CacheHold<'s>,
    gate: &G,
) -> Result<(Vec<Fe>, Vec<Fe>), PairError>
    requires settings { AreInRange MOST_BITS settings.now }
    requires tiles { HasFewTiles settings.now (length batch.now) }
    requires few { length candidates.now ≤ settings.now.cap }
    requires long { All (λ q. length q ≡ level) candidates.now }
    requires levels { HaveLevels level batch.now }
    requires places { All (λ k. k < length batch.now) passed.now }
    requires small { length passed.now < 2 ^ 27 }
    requires within { length passed.now ≤ length batch.now }
    requires caches { HasCaches batch.now settings.now.workers caches.now hold.old }
    ensures caches { IfOk result (λ own. HasCaches batch.now settings.now.workers caches.now hold.new) }
    ensures totals0 { IfOk result (λ own. own.0.items ≡ map (own_total (picked batch.now passed.now) Zero) candidates.now) }
    ensures totals1 { IfOk result (λ own. own.1.items ≡ map (own_total (picked batch.now passed.now) One) candidates.now) }
    ensures count { IfOk result (λ own. (length own.0.items ≡ length candidates.now) × (length own.1.items ≡ length candidates.now)) }
    ensures below0 { IfOk result (λ own. All (λ n. n < modulus) own.0.items) }
    ensures below1 { IfOk result (λ own. All (λ n. n < modulus) own.1.items) }
    ensures memory { IfErr result (λ e. e ≡ Memory) }
{
    let zero = side_plan(
        settings,
        Kind::Totals,
        level,
        candidates,
        Side::Zero,
        batch,
        passed,
    );
    let one = side_plan(
        settings,
        Kind::Totals,
        level,
        candidates,
        Side::One,
        batch,
        passed,
    );
    Ok(both_totals(rt, alloc, &zero, &one, settings.workers, caches, hold, gate)?)
}
