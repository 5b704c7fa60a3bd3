//! The first part of a level: both sides send their own sums, and each opens its own with those that it received.
//! The sums are hidden, so that what is opened says nothing of the report but whether it passes.

ghost use Rattle.std.specs.Prelude.{◌≡◌, ◌<◌, ◌≤◌, ◌^◌, length, map, IfOk, IfErr, None};
ghost use Rattle.std.specs.List.{All};
ghost use Rattle.prefix_bits.specs.declared.TheConstants.{MOST_BITS};
ghost use Rattle.definitions.specs.declared.Side.TheVariants.{Zero, One};
ghost use Rattle.definitions.specs.Field.{modulus};
ghost use Rattle.definitions.specs.Sketch.{sums_added};
ghost use Rattle.walk_definitions.specs.Walk.{own_sums};
ghost use Rattle.walk_definitions.specs.Messages.{flat, both_send};
ghost use Rattle.walk_definitions.specs.Heard.{paired};
ghost use Rattle.pair_run.specs.Failures.{end_of, Stops, HasPairCause};
ghost use Rattle.pair_run.specs.declared.answers.PairError.TheVariants.{Memory};
ghost use Rattle.pair_run.specs.Levels.{HaveLevels};
ghost use Rattle.pair_run.specs.Parts.{GoesOn, opening};
ghost use Rattle.pair_run.specs.Places.{picked};
ghost use Rattle.pair_run.specs.Plans.{HasFewTiles};
ghost use Rattle.pair_run.specs.Ranges.{AreInRange};
ghost use Rattle.pair_run.specs.SideCaches.{HasCaches};
ghost use Rattle.pair_run.specs.Rules.{rules_of};
ghost use Rattle.shelf_io.specs.Seen.{link_seen, IsTrueAndIdle};
ghost use Rattle.pair_run.specs.Talking.{Passed, SentMore, SentPart};

use crate::additions::opened_sums;
use crate::answers::PairError;
use crate::exchange::exchange_sums;
use crate::plans::side_plan;
use crate::settings::WalkSettings;
use definitions::Side;
use phase_state::Kind;
use phase_sums::{CacheHold, Caches, both_sums};
use prefix_bits::Prefix;
use report_batch::Batch;
use shelf_io::{Gate, Link};
use sketch_check::Sums;
use std::alloc::Global;
use std::sync::Wait;
use std::thread::Threads;

/// What both sides open of each live report at a level: side 0's and side 1's.
pub fn open_sums<'s, R: Threads + Wait + Sync, K: Link, G: Gate>(
    rt: &R,
    alloc: Global,
    link: &mut K,
    settings: &WalkSettings,
    level: u16,
    candidates: &[Prefix],
    batch: &Batch,
    live: &[u32],
    caches: &Caches<'s>,
    hold: &mut CacheHold<'s>,
    gate: &G,
) -> Result<(Vec<Sums>, Vec<Sums>), PairError>
    requires settings { AreInRange MOST_BITS settings.now }
    requires tiles { HasFewTiles settings.now (length batch.now) }
    requires few { length candidates.now ≤ settings.now.cap }
    requires long { All (λ q. length q ≡ level) candidates.now }
    requires levels { HaveLevels level batch.now }
    requires places { All (λ k. k < length batch.now) live.now }
    requires small { length live.now < 2 ^ 27 }
    requires within { length live.now ≤ length batch.now }
    requires caches { HasCaches batch.now settings.now.workers caches.now hold.old }
    ensures caches { IfOk result (λ opened. HasCaches batch.now settings.now.workers caches.now hold.new) }
    ensures counts { IfOk result (λ opened. (length opened.0.items ≡ length live.now) × (length opened.1.items ≡ length live.now)) }
    ensures goes { IfOk result (λ opened. Passed (K.talk link.old) (K.talk link.new)
        (GoesOn (opening (rules_of settings.now) level candidates.now (picked batch.now live.now)) (opened.0.items, opened.1.items))) }
    ensures stops { IfErr result (Stops (opening (rules_of settings.now) level candidates.now (picked batch.now live.now))
        (K.talk link.old) (K.talk link.new)) }
    ensures truly { IfOk result (λ opened. IsTrueAndIdle (link_seen K.Link link.old)
        → let sums0 = map (own_sums (rules_of settings.now) level candidates.now Zero) (picked batch.now live.now) in
        let sums1 = map (own_sums (rules_of settings.now) level candidates.now One) (picked batch.now live.now) in
        (opened.0.items ≡ paired sums_added sums0 sums1) × (opened.1.items ≡ paired sums_added sums1 sums0)
        × IsTrueAndIdle (link_seen K.Link link.new)
        × SentMore (K.talk link.old) (K.talk link.new) (both_send 1 level (flat sums0) (flat sums1))) }
    ensures partly { IfErr result (λ e. IsTrueAndIdle (link_seen K.Link link.old)
        → let sums0 = map (own_sums (rules_of settings.now) level candidates.now Zero) (picked batch.now live.now) in
        let sums1 = map (own_sums (rules_of settings.now) level candidates.now One) (picked batch.now live.now) in
        (end_of e ≡ None) × SentPart (K.talk link.old) (K.talk link.new) (both_send 1 level (flat sums0) (flat sums1))) }
    ensures cause { HasPairCause (K.faults link.old) (K.faults link.new) result }
{
    let (sums0, sums1) = own_sums(
        rt, alloc, settings, level, candidates, batch, live, caches, hold, gate,
    )?;
    let (to0, to1) = exchange_sums(alloc, link, level, &sums0, &sums1)?;
    let opened0 = opened_sums(alloc, &sums0, &to0)?;
    let opened1 = opened_sums(alloc, &sums1, &to1)?;
    Ok((opened0, opened1))
}

/// Both sides' own sums of a batch's live reports, made by a crew a side at once and hidden.
fn own_sums<'s, R: Threads + Wait + Sync, G: Gate>(
    rt: &R,
    alloc: Global,
    settings: &WalkSettings,
    level: u16,
    candidates: &[Prefix],
    batch: &Batch,
    live: &[u32],
    caches: &Caches<'s>,
    hold: &mut CacheHold<'s>,
    gate: &G,
) -> Result<(Vec<Sums>, Vec<Sums>), PairError>
    requires settings { AreInRange MOST_BITS settings.now }
    requires tiles { HasFewTiles settings.now (length batch.now) }
    requires few { length candidates.now ≤ settings.now.cap }
    requires long { All (λ q. length q ≡ level) candidates.now }
    requires levels { HaveLevels level batch.now }
    requires places { All (λ k. k < length batch.now) live.now }
    requires small { length live.now < 2 ^ 27 }
    requires within { length live.now ≤ length batch.now }
    requires caches { HasCaches batch.now settings.now.workers caches.now hold.old }
    ensures caches { IfOk result (λ own. HasCaches batch.now settings.now.workers caches.now hold.new) }
    ensures sums0 { IfOk result (λ own. own.0.items ≡ map (own_sums (rules_of settings.now) level candidates.now Zero) (picked batch.now live.now)) }
    ensures sums1 { IfOk result (λ own. own.1.items ≡ map (own_sums (rules_of settings.now) level candidates.now One) (picked batch.now live.now)) }
    ensures count { IfOk result (λ own. (length own.0.items ≡ length live.now) × (length own.1.items ≡ length live.now)) }
    ensures below0 { IfOk result (λ own. All (λ n. n < modulus) (flat own.0.items)) }
    ensures below1 { IfOk result (λ own. All (λ n. n < modulus) (flat own.1.items)) }
    ensures memory { IfErr result (λ e. e ≡ Memory) }
{
    let zero = side_plan(
        settings,
        Kind::Sketch,
        level,
        candidates,
        Side::Zero,
        batch,
        live,
    );
    let one = side_plan(
        settings,
        Kind::Sketch,
        level,
        candidates,
        Side::One,
        batch,
        live,
    );
    Ok(both_sums(rt, alloc, &zero, &one, settings.workers, caches, hold, gate)?)
}
