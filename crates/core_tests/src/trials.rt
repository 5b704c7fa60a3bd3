//! Runs of the core whose conditions are tried.

ghost use Rattle.std.specs.Prelude.{◌≡◌, ◌≤◌, true};
ghost use Rattle.std.specs.List.{AllByRecursion};
ghost use Rattle.prefix_bits.specs.declared.TheConstants.{MOST_BITS};
ghost use Rattle.half_events.specs.Settings.{AreUsable};
ghost use Rattle.interleaving_core.specs.Events.{HasLevels};

use crate::lists::{UPLOADERS, WORKERS};
use interleaving_core::{CoreSettings, Event, System, run_events};
use seed_expand::Seed;
use std::alloc::{AllocError, Global};

/// How phases are cut into tiles.
#[derive(Clone, Copy, Debug, PartialEq, Eq)]
pub enum Cut {
    /// A tile for each report and candidate.
    Single,
    /// Tiles of two reports by three candidates.
    Small,
    /// Tiles of 64 reports by 64 candidates.
    Large,
}

/// Settings for strings of 8 bits.
pub fn settings_of(threshold: u64, cap: u32, cut: Cut) -> CoreSettings
    requires threshold { 1 ≤ threshold }
    requires cap { (2 ≤ cap) × (cap ≤ 65536) }
    ensures usable { AreUsable MOST_BITS result }
    ensures bits { result.walk.bits ≡ 8 }
{
    let (by_reports, by_candidates) = match cut {
        Cut::Single => (1, 1),
        Cut::Small => (2, 3),
        Cut::Large => (64, 64),
    };
    CoreSettings {
        bits: 8,
        threshold,
        cap,
        verify: Seed([9; 32]),
        by_reports,
        by_candidates,
        uploaders: UPLOADERS,
        workers: WORKERS,
    }
}

// Whether each uploaded share has so many levels.
fn have_levels(events: &[Event], bits: u16) -> bool
    ensures { result ≡ true → AllByRecursion (HasLevels bits) events.now }
{
    for event in events {
        if let Event::Upload { share, .. } = event {
            if share.levels.len() != usize::from(bits) {
                return false;
            }
        }
    }
    true
}

/// The system after the events, where there are at most 10,000 of them and each share has 8 levels; else none.
pub fn try_events(
    alloc: Global,
    settings: &CoreSettings,
    events: Vec<Event>,
) -> Result<Option<System>, AllocError>
    requires usable { AreUsable MOST_BITS settings.now }
    requires bits { settings.now.walk.bits ≡ 8 }
{
    if events.len() > 10_000 || !have_levels(&events, 8) {
        return Ok(None);
    }
    Ok(Some(run_events(alloc, settings, events)?))
}
