//! Both sides' shares, collected by uploaders at once, and the walk of their batch.
//! Clashes and ids of one side alone are left out before the walk begins.

ghost use Rattle.std.specs.Prelude.{◌≡◌, ◌<◌, ◌≤◌, ◌^◌, IfOk, length};
ghost use Rattle.std.specs.List.{All};
ghost use Rattle.prefix_bits.specs.declared.TheConstants.{MOST_BITS};
ghost use Rattle.walk_definitions.specs.Reports.{batch};
ghost use Rattle.shelf_io.specs.Seen.{link_seen};
ghost use Rattle.pair_run.specs.Keeps.{WalkKeeps};
ghost use Rattle.pair_run.specs.Plans.{HasFewTiles};
ghost use Rattle.pair_run.specs.Ranges.{AreInRange};
ghost use Rattle.pair_run.specs.Rules.{rules_of};

use crate::answers::{Answer, PairError};
use crate::settings::WalkSettings;
use crate::walking::walk;
use definitions::Side;
use idpf_eval::Share;
use report_batch::Batch;
use report_collection::Collect;
use report_collection::laws::a_batch_knows_no_order;
use shelf_io::{Gate, Link};
use std::alloc::{AllocError, Global};
use std::sync::Wait;
use std::thread::Threads;

/// Collects both sides' shares, each by so many uploaders at once, side 0's first, and walks their batch over the link, as
/// `walk` does: the reports whose ids have one content on each side, ascending by id. The gate is told of each upload. The
/// promise is that of `walk`, over the batch of the two lists (`WalkKeeps`), whatever the uploaders did in between; the shares
/// are given up. It waits.
pub fn run_pair<R: Threads + Wait + Sync, K: Link, G: Gate>(
    rt: &R,
    alloc: Global,
    zero: Vec<Share>,
    one: Vec<Share>,
    uploaders: u32,
    settings: &WalkSettings,
    link: &mut K,
    gate: &G,
) -> Result<Answer, PairError>
    requires uploaders { (1 ≤ uploaders) × (uploaders ≤ 64) }
    requires settings { AreInRange MOST_BITS settings.now }
    requires levels0 { All (λ s. length s.levels ≡ settings.now.bits) zero.items }
    requires levels1 { All (λ s. length s.levels ≡ settings.now.bits) one.items }
    requires few0 { length zero.items < 2 ^ 27 }
    requires few1 { length one.items < 2 ^ 31 }
    requires tiles { HasFewTiles settings.now (length zero.items) }
    ensures { WalkKeeps (rules_of settings.now) (batch zero.items one.items)
        (link_seen K.Link link.old) (link_seen K.Link link.new) result }
{
    let reports = collected(rt, alloc, zero, one, uploaders, gate)?;
    walk(rt, alloc, &reports, settings, link, gate)
}

/// The batch of both lists, which the uploaders of each side upload at once, side 0's first.
fn collected<R: Threads + Wait + Sync, G: Gate>(
    rt: &R,
    alloc: Global,
    zero: Vec<Share>,
    one: Vec<Share>,
    uploaders: u32,
    gate: &G,
) -> Result<Batch, AllocError>
    requires uploaders { (1 ≤ uploaders) × (uploaders ≤ 64) }
    ensures exact { IfOk result (λ b. b ≡ batch zero.items one.items) }
{
    a_batch_knows_no_order();
    let mut collect = Collect::new(alloc, uploaders)?;
    collect.add(rt, Side::Zero, zero, gate)?;
    collect.add(rt, Side::One, one, gate)?;
    let batch = collect.seal()?;
    Ok(batch)
}
