//! One level of the walk over a link: open the sums, check the reports, add the totals.
//! Each part ends the walk where a side cannot read what it received, or the two sides' sums differ.

ghost use Rattle.std.specs.Prelude.{◌≡◌, ◌<◌, ◌≤◌, ◌^◌, length, map, IfOk, IfErr, None};
ghost use Rattle.std.specs.List.{All};
ghost use Rattle.prefix_bits.specs.declared.TheConstants.{MOST_BITS};
ghost use Rattle.walk_definitions.specs.Walk.{total, live_after};
ghost use Rattle.walk_definitions.specs.Messages.{level_messages};
ghost use Rattle.pair_run.specs.Failures.{end_of, Stops, HasPairCause};
ghost use Rattle.pair_run.specs.Levels.{HaveLevels, stage_of};
ghost use Rattle.pair_run.specs.Parts.{GoesOn, whole_level};
ghost use Rattle.pair_run.specs.Places.{picked};
ghost use Rattle.pair_run.specs.Plans.{HasFewTiles};
ghost use Rattle.pair_run.specs.Ranges.{AreInRange};
ghost use Rattle.pair_run.specs.SideCaches.{HasCaches};
ghost use Rattle.pair_run.specs.Rules.{rules_of};
ghost use Rattle.shelf_io.specs.Seen.{link_seen, IsTrueAndIdle};
ghost use Rattle.pair_run.specs.Talking.{Passed, SentMore, SentPart};

use crate::answers::PairError;
use crate::checking::check_reports;
use crate::opening::open_sums;
use crate::settings::WalkSettings;
use crate::totalling::add_totals;
use field64::Fe;
use phase_sums::{CacheHold, Caches};
use prefix_bits::Prefix;
use report_batch::Batch;
use shelf_io::{Gate, Link};
use std::alloc::Global;
use std::sync::Wait;
use std::thread::Threads;

/// What a level leaves: the places of the reports that passed it, and the totals of its candidates.
#[derive(Drop)]
pub struct WalkedLevel {
    pub live: Vec<u32>,
    pub totals: Vec<Fe>,
}

/// Walks a level, counted from 1, over its candidates and the reports that are live before it.
pub fn walk_level<'s, R: Threads + Wait + Sync, K: Link, G: Gate>(
    rt: &R,
    alloc: Global,
    link: &mut K,
    settings: &WalkSettings,
    level: u16,
    candidates: &[Prefix],
    batch: &Batch,
    live: &[u32],
    caches: &Caches<'s>,
    hold: &mut CacheHold<'s>,
    gate: &G,
) -> Result<WalkedLevel, PairError>
    requires first { 1 ≤ level }
    requires settings { AreInRange MOST_BITS settings.now }
    requires tiles { HasFewTiles settings.now (length batch.now) }
    requires few { length candidates.now ≤ settings.now.cap }
    requires long { All (λ q. length q ≡ level) candidates.now }
    requires levels { HaveLevels level batch.now }
    requires places { All (λ k. k < length batch.now) live.now }
    requires small { length live.now < 2 ^ 27 }
    requires within { length live.now ≤ length batch.now }
    requires caches { HasCaches batch.now settings.now.workers caches.now hold.old }
    ensures caches { IfOk result (λ walked. HasCaches batch.now settings.now.workers caches.now hold.new) }
    ensures places { IfOk result (λ walked. All (λ k. k < length batch.now) walked.live.items) }
    ensures small { IfOk result (λ walked. length walked.live.items ≤ length live.now) }
    ensures count { IfOk result (λ walked. length walked.totals.items ≡ length candidates.now) }
    ensures goes { IfOk result (λ walked. Passed (K.talk link.old) (K.talk link.new)
        (GoesOn (whole_level (rules_of settings.now) level candidates.now (picked batch.now live.now))
        (picked batch.now walked.live.items, walked.totals.items))) }
    ensures stops { IfErr result (Stops (whole_level (rules_of settings.now) level candidates.now (picked batch.now live.now))
        (K.talk link.old) (K.talk link.new)) }
    ensures truly { IfOk result (λ walked. IsTrueAndIdle (link_seen K.Link link.old)
        → let passed = live_after (rules_of settings.now) level (stage_of (picked batch.now live.now) candidates.now) in
        (picked batch.now walked.live.items ≡ passed) × (walked.totals.items ≡ map (total passed) candidates.now)
        × IsTrueAndIdle (link_seen K.Link link.new)
        × SentMore (K.talk link.old) (K.talk link.new)
        (level_messages (rules_of settings.now) level (stage_of (picked batch.now live.now) candidates.now))) }
    ensures partly { IfErr result (λ e. IsTrueAndIdle (link_seen K.Link link.old)
        → (end_of e ≡ None) × SentPart (K.talk link.old) (K.talk link.new)
        (level_messages (rules_of settings.now) level (stage_of (picked batch.now live.now) candidates.now))) }
    ensures cause { HasPairCause (K.faults link.old) (K.faults link.new) result }
{
    let (opened0, opened1) = open_sums(
        rt, alloc, link, settings, level, candidates, batch, live, caches, hold, gate,
    )?;
    let passed = check_reports(alloc, link, level, batch, live, &opened0, &opened1)?;
    let totals = add_totals(
        rt, alloc, link, settings, level, candidates, batch, &passed, caches, hold, gate,
    )?;
    Ok(WalkedLevel {
        live: passed,
        totals,
    })
}
