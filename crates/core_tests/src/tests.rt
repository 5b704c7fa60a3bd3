//! What no clause says of the core: that lists of events run to the end and end as the one-thread walk does, and the row of
//! one pair whose carry waits for the posts.

ghost use Rattle.std.specs.Prelude.{◌≤◌};

use crate::shares::equal_roots_share;
use crate::{Cut, draw_list, leads_to, settings_of, try_events};
use definitions::Side;
use interleaving_core::{Event, Kind, System};
use std::alloc::{AllocError, Global};

// The events of one pair with equal root seeds, up to the seal.
fn pair_events(alloc: Global) -> Result<Vec<Event>, AllocError> {
    let mut events = Vec::new(alloc);
    for side in [Side::Zero, Side::One] {
        let share = equal_roots_share(alloc, side)?;
        events.push(Event::Upload {
            side,
            pass: 0,
            share,
        })?;
    }
    events.push(Event::Seal)?;
    Ok(events)
}

// The phase and the level.
fn stands(system: &Option<System>) -> (Option<Kind>, u16) {
    match system {
        Some(system) => (system.phase(), system.level()),
        None => (None, 0),
    }
}

#[test]
fn a_carry_waits_for_the_posts(rt: HostRuntime) -> Result<(), AllocError> {
    let settings = settings_of(1, 4096, Cut::Large);
    let mut events = pair_events(rt.alloc())?;
    events.push(Event::Carry)?;
    let system = try_events(rt.alloc(), &settings, events)?;
    assert_eq!(rt; stands(&system), (Some(Kind::Sketch), 1));
    let mut events = pair_events(rt.alloc())?;
    for side in [Side::Zero, Side::One] {
        events.push(Event::Claim { side, worker: 0 })?;
        events.push(Event::Post { side, worker: 0 })?;
    }
    events.push(Event::Carry)?;
    let system = try_events(rt.alloc(), &settings, events)?;
    assert_eq!(rt; stands(&system), (Some(Kind::Totals), 1));
    Ok(())
}

// The threshold and the cap of a seed's trial.
fn bounds_of(seed: u64) -> (u64, u32)
    ensures threshold { 1 ≤ result.0 }
    ensures cap { (2 ≤ result.1) × (result.1 ≤ 65536) }
{
    match seed % 3 {
        0 => (1, 4096),
        1 => (2, 4096),
        _ => (1, 2),
    }
}

// Whether the list of a seed ends as the walk does.
fn leads(alloc: Global, seed: u64, cut: Cut) -> Result<bool, AllocError> {
    let (threshold, cap) = bounds_of(seed);
    let settings = settings_of(threshold, cap, cut);
    let drawn = draw_list(alloc, seed)?;
    match try_events(alloc, &settings, drawn.events)? {
        Some(system) => leads_to(alloc, &settings, &drawn.clashed, &system),
        None => Ok(false),
    }
}

#[test]
fn drawn_lists_lead_to_the_walk(rt: HostRuntime) -> Result<(), AllocError> {
    for seed in 0..60 {
        for cut in [Cut::Single, Cut::Small, Cut::Large] {
            assert!(rt; leads(rt.alloc(), seed, cut)?, "seed {seed}, {cut:?}");
        }
    }
    Ok(())
}
