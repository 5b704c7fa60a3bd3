//! The core over a list of events: what is collected, and the walk over its batch from phase to phase.
//! The system is exactly the definitions' after the same events.

ghost use Rattle.std.specs.Prelude.{◌≡◌, ◌*◌, ◌<◌, ◌^◌, length, IfOk};
ghost use Rattle.std.specs.List.{AllByRecursion};
ghost use Rattle.definitions.specs.declared.Side.TheVariants.{Zero, One};
ghost use Rattle.prefix_bits.specs.declared.TheConstants.{MOST_BITS};
ghost use Rattle.walk_definitions.specs.Reports.{batch};
ghost use Rattle.core_definitions.specs.Phase.{totalling};
ghost use Rattle.core_definitions.specs.System.{run, first_system, walking, sealed, carried_totals, uploads};
ghost use Rattle.half_events.specs.Settings.{AreUsable};
ghost use Rattle.half_events.specs.Stages.{kind_of};
ghost use Rattle.interleaving_core.specs.Events.{events_of, HasLevels, uploads_in};
ghost use Rattle.interleaving_core.specs.Systems.{seen, FollowsWalk};
ghost use Rattle.interleaving_core.specs.Phases.{IsCarriedOn};
ghost use Rattle.interleaving_core.specs.Turns.{begun_of, HaveLevels, IsFit, IsReady, LeadsTo, IsTurn};

use crate::collecting::collect;
use crate::event_queue::EventQueue;
use crate::events::Event;
use crate::outcomes::Outcome;
use crate::phases::{Carried, Found, run_phase};
use crate::systems::{Standing, System};
use crate::walks::Walked;
use definitions::Sequence;
use field64::Fe;
use frontier_walk::{Next, PruneError};
use half_events::{CacheEntry, CoreSettings};
use phase_state::Kind;
use report_batch::Batch;
use std::alloc::{AllocError, Global};

/// A walk before a phase, with both sides' caches.
#[derive(Drop)]
pub struct Walker {
    /// The walk.
    pub walked: Walked,
    /// The cache of side 0.
    pub zero: Vec<CacheEntry>,
    /// The cache of side 1.
    pub one: Vec<CacheEntry>,
}

/// What a phase leads to.
#[derive(Drop)]
pub enum Turn {
    /// The next phase.
    Further(Walker),
    /// A system to which nothing more happens: the events ended, or the walk did.
    Last(System),
}

// What totals lead to.
fn prune(
    alloc: Global,
    settings: &CoreSettings,
    walker: Walker,
    totals: Vec<Fe>,
) -> Result<Turn, AllocError>
    requires usable { AreUsable MOST_BITS settings.now }
    requires fit { IsFit settings.now walker.walked }
    requires kind { kind_of walker.walked.kind ≡ totalling }
    requires count { length totals.items ≡ length walker.walked.frontier.candidates }
    requires kept { IsCarriedOn settings.now (carried_totals settings.now (begun_of settings.now walker) totals.items) }
    ensures { IfOk result (LeadsTo settings.now (carried_totals settings.now (begun_of settings.now walker) totals.items)) }
{
    let Walker {
        mut walked,
        zero,
        one,
    } = walker;
    let pruned = walked.frontier.prune(alloc, &totals, settings.threshold);
    walked.totals.push(Sequence::from_vec(totals))?;
    match pruned {
        Ok(Next::Level(frontier)) => {
            walked.frontier = frontier;
            walked.kind = Kind::Sketch;
            Ok(Turn::Further(Walker { walked, zero, one }))
        }
        Ok(Next::Done(heavy)) => Ok(Turn::Last(System::of(Standing::Ended(
            walked,
            Outcome::Done(heavy),
        )))),
        Err(refused) => match refused {
            PruneError::Cap { level, wanted } => Ok(Turn::Last(System::of(Standing::Ended(
                walked,
                Outcome::Capped { level, wanted },
            )))),
            PruneError::Memory => Err(AllocError),
        },
    }
}

// One phase, and what it leads to.
fn take_turn(
    alloc: Global,
    settings: &CoreSettings,
    walker: Walker,
    events: &mut EventQueue,
) -> Result<Turn, AllocError>
    requires usable { AreUsable MOST_BITS settings.now }
    requires ready { IsReady settings.now walker }
    requires room { length events.old < 2 ^ 31 }
    ensures { IfOk result (IsTurn settings.now walker events.old events.new) }
{
    let Walker {
        mut walked,
        zero,
        one,
    } = walker;
    let stage = walked.stage();
    let end = run_phase(alloc, settings, &stage, zero, one, events)?;
    match end {
        None => Ok(Turn::Last(System::of(Standing::Walking(walked)))),
        Some(carried) => {
            let Carried { found, zero, one } = carried;
            match found {
                Found::Live(live) => {
                    walked.live = live;
                    walked.kind = Kind::Totals;
                    Ok(Turn::Further(Walker { walked, zero, one }))
                }
                Found::Added(totals) => prune(
                    alloc,
                    settings,
                    Walker { walked, zero, one },
                    totals,
                ),
            }
        }
    }
}

// The walk over a batch, phase by phase.
fn walk(
    alloc: Global,
    settings: &CoreSettings,
    batch: Batch,
    events: &mut EventQueue,
) -> Result<System, AllocError>
    requires usable { AreUsable MOST_BITS settings.now }
    requires levels { HaveLevels settings.now batch }
    requires small { length batch * settings.now.walk.cap < 2 ^ 31 }
    requires room { length events.old < 2 ^ 31 }
    ensures { IfOk result (λ system. system ≡ seen (run settings.now (events_of events.old) (walking (sealed settings.now batch)))) }
{
    let mut walker = Walker {
        walked: Walked::begin(alloc, settings, batch)?,
        zero: Vec::new(alloc),
        one: Vec::new(alloc),
    };
    'phases: loop {
        match take_turn(alloc, settings, walker, events)? {
            Turn::Further(next) => walker = next,
            Turn::Last(system) => return Ok(system),
        }
    }
}

/// The system after the events, in their order, from one that collects with two empty intakes. An event that is not enabled
/// where it comes changes nothing.
///
/// Every uploaded share has as many levels as the settings' strings have bits. There are fewer than 2^31 events, and the
/// number of uploads times the cap is below 2^31. `AllocError` is want of memory; then everything is given up.
pub fn run_events(
    alloc: Global,
    settings: &CoreSettings,
    events: Vec<Event>,
) -> Result<System, AllocError>
    requires usable { AreUsable MOST_BITS settings.now }
    requires levels { AllByRecursion (HasLevels settings.now.walk.bits) events.items }
    requires few { length events.items < 2 ^ 31 }
    requires small { uploads_in events.items * settings.now.walk.cap < 2 ^ 31 }
    ensures exact { IfOk result (λ system. system ≡ seen (run settings.now (events_of events.items) first_system)) }
    ensures walks { IfOk result (FollowsWalk settings.now
        (batch (uploads settings.now Zero (events_of events.items)) (uploads settings.now One (events_of events.items)))) }
{
    let mut queue = EventQueue::of(events);
    match collect(alloc, settings, &mut queue)? {
        Some(batch) => walk(alloc, settings, batch, &mut queue),
        None => Ok(System::of(Standing::Collecting)),
    }
}
