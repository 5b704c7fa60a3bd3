//! The walk of a collection that was filled before, list by list.
//! Its batch is sealed first; the shares are given up with it.

ghost use Rattle.std.specs.Prelude.{◌≡◌, ◌<◌, ◌^◌, length};
ghost use Rattle.std.specs.List.{All};
ghost use Rattle.prefix_bits.specs.declared.TheConstants.{MOST_BITS};
ghost use Rattle.walk_definitions.specs.Reports.{batch};
ghost use Rattle.shelf_io.specs.Seen.{link_seen};
ghost use Rattle.pair_run.specs.Keeps.{WalkKeeps};
ghost use Rattle.pair_run.specs.Plans.{HasFewTiles};
ghost use Rattle.pair_run.specs.Ranges.{AreInRange};
ghost use Rattle.pair_run.specs.Rules.{rules_of};

use crate::answers::{Answer, PairError};
use crate::settings::WalkSettings;
use crate::walking::walk;
use report_collection::Collect;
use shelf_io::{Gate, Link};
use std::alloc::Global;
use std::sync::Wait;
use std::thread::Threads;

/// Seals a collection of both sides' shares and walks its batch over the link, as `walk` does: the reports whose ids have one
/// content on each side, ascending by id. The promise is that of `walk`, over the batch of the two lists (`WalkKeeps`); the
/// shares are given up. It waits.
pub fn walk_collected<R: Threads + Wait + Sync, K: Link, G: Gate>(
    rt: &R,
    alloc: Global,
    collect: Collect,
    settings: &WalkSettings,
    link: &mut K,
    gate: &G,
) -> Result<Answer, PairError>
    requires settings { AreInRange MOST_BITS settings.now }
    requires levels0 { All (λ s. length s.levels ≡ settings.now.bits) collect.zero }
    requires levels1 { All (λ s. length s.levels ≡ settings.now.bits) collect.one }
    requires few { length collect.zero < 2 ^ 27 }
    requires tiles { HasFewTiles settings.now (length collect.zero) }
    ensures { WalkKeeps (rules_of settings.now) (batch collect.zero collect.one)
        (link_seen K.Link link.old) (link_seen K.Link link.new) result }
{
    let reports = collect.seal()?;
    walk(rt, alloc, &reports, settings, link, gate)
}
