//! One phase of both sides: its events up to the one by which it is carried, and what it then comes to.
//! Each event is the definitions' of its name.

ghost use Rattle.std.specs.Prelude.{◌≡◌, ◌<◌, ◌^◌, ◌↔◌, IsTrue, length, IfOk, OnOk};
ghost use Rattle.prefix_bits.specs.declared.TheConstants.{MOST_BITS};
ghost use Rattle.core_definitions.specs.System.{WalkKept, of_half};
ghost use Rattle.half_events.specs.Settings.{AreUsable};
ghost use Rattle.half_events.specs.Stages.{IsStage};
ghost use Rattle.half_events.specs.Steps.{step_of};
ghost use Rattle.interleaving_core.specs.Events.{event_of};
ghost use Rattle.interleaving_core.specs.Sides.{AreSides, HasRoom, AreComplete, IsStepped, IsTaken, HasEnded};
ghost use Rattle.interleaving_core.specs.Walks.{begun_at};
ghost use Rattle.interleaving_core.specs.Phases.{IsFound, IsPhaseEnd};

use crate::carrying::{added_totals, passed_places};
use crate::event_queue::EventQueue;
use crate::events::{Event, at_side};
use crate::sides::Sides;
use definitions::Side;
use field64::Fe;
use half_events::{CacheEntry, CoreSettings, Stage, Step, begin_half, step_half};
use phase_state::Kind;
use std::alloc::{AllocError, Global};

/// What a carried phase found.
#[derive(Drop)]
pub enum Found {
    /// The live reports that passed the level's check.
    Live(Vec<u32>),
    /// The totals of the level's candidates.
    Added(Vec<Fe>),
}

/// A phase that was carried.
#[derive(Drop)]
pub struct Carried {
    /// What it found.
    pub found: Found,
    /// The cache of side 0 after it.
    pub zero: Vec<CacheEntry>,
    /// The cache of side 1 after it.
    pub one: Vec<CacheEntry>,
}

// Something happens at one of the two sides.
fn step_side(
    alloc: Global,
    settings: &CoreSettings,
    stage: &Stage<'_>,
    sides: &mut Sides<'_>,
    side: Side,
    step: Step,
) -> Result<(), AllocError>
    requires usable { AreUsable MOST_BITS settings.now }
    requires stage { IsStage settings.now stage.now }
    requires sides { AreSides settings.now stage.now sides.old }
    requires room { HasRoom 1 sides.old }
    ensures { OnOk result (IsStepped settings.now stage.now (of_half side (step_of step)) sides.old sides.new) }
{
    match side {
        Side::Zero => step_half(alloc, settings, stage, &mut sides.zero, step)?,
        Side::One => step_half(alloc, settings, stage, &mut sides.one, step)?,
    }
    Ok(())
}

// Whether each tile of both sides is posted.
fn are_complete(sides: &Sides<'_>) -> bool
    ensures { IsTrue result ↔ AreComplete sides.now }
{
    sides.zero.state.all_posted() && sides.one.state.all_posted()
}

// One event in a phase. True where the phase is carried by it.
fn take_event(
    alloc: Global,
    settings: &CoreSettings,
    stage: &Stage<'_>,
    sides: &mut Sides<'_>,
    event: &Event,
) -> Result<bool, AllocError>
    requires usable { AreUsable MOST_BITS settings.now }
    requires stage { IsStage settings.now stage.now }
    requires sides { AreSides settings.now stage.now sides.old }
    requires room { HasRoom 1 sides.old }
    ensures { IfOk result (IsTaken settings.now stage.now (event_of event.now) sides.old sides.new) }
{
    if let Event::Carry = event {
        return Ok(are_complete(sides));
    }
    if let Some((side, step)) = at_side(event) {
        step_side(alloc, settings, stage, sides, side, step)?;
    }
    Ok(false)
}

// Takes events up to the one by which the phase is carried. False where they end before.
fn take_events(
    alloc: Global,
    settings: &CoreSettings,
    stage: &Stage<'_>,
    sides: &mut Sides<'_>,
    events: &mut EventQueue,
) -> Result<bool, AllocError>
    requires usable { AreUsable MOST_BITS settings.now }
    requires stage { IsStage settings.now stage.now }
    requires sides { AreSides settings.now stage.now sides.old }
    requires room { HasRoom (length events.old) sides.old }
    ensures { IfOk result (HasEnded settings.now stage.now sides.old events.old sides.new events.new) }
{
    'events: while let Some(event) = events.next() {
        if take_event(alloc, settings, stage, sides, &event)? {
            return Ok(true);
        }
    }
    Ok(false)
}

// What both sides found, all of whose tiles are posted.
fn find_all(
    alloc: Global,
    settings: &CoreSettings,
    stage: &Stage<'_>,
    sides: &Sides<'_>,
) -> Result<Found, AllocError>
    requires usable { AreUsable MOST_BITS settings.now }
    requires stage { IsStage settings.now stage.now }
    requires sides { AreSides settings.now stage.now sides.now }
    ensures { IfOk result (IsFound settings.now stage.now sides.now) }
{
    match stage.kind {
        Kind::Sketch => {
            let live = passed_places(
                alloc,
                stage,
                sides.zero.state.sums(),
                sides.one.state.sums(),
            )?;
            Ok(Found::Live(live))
        }
        Kind::Totals => {
            let totals = added_totals(alloc, sides.zero.state.totals(), sides.one.state.totals())?;
            Ok(Found::Added(totals))
        }
    }
}

/// One phase, from its beginning with these caches. `None` where the events end in it. `AllocError` is want of memory.
pub fn run_phase(
    alloc: Global,
    settings: &CoreSettings,
    stage: &Stage<'_>,
    zero: Vec<CacheEntry>,
    one: Vec<CacheEntry>,
    events: &mut EventQueue,
) -> Result<Option<Carried>, AllocError>
    requires usable { AreUsable MOST_BITS settings.now }
    requires stage { IsStage settings.now stage.now }
    requires kept { WalkKept settings.now (begun_at settings.now stage.now zero.items one.items) }
    requires room { length events.old < 2 ^ 31 }
    ensures { IfOk result (IsPhaseEnd settings.now stage.now zero.items one.items events.old events.new) }
{
    let mut sides = Sides {
        zero: begin_half(alloc, settings, stage, Side::Zero, zero)?,
        one: begin_half(alloc, settings, stage, Side::One, one)?,
    };
    if !take_events(alloc, settings, stage, &mut sides, events)? {
        return Ok(None);
    }
    let found = find_all(alloc, settings, stage, &sides)?;
    let Sides { zero, one } = sides;
    Ok(Some(Carried {
        found,
        zero: zero.cache,
        one: one.cache,
    }))
}
