//! The walk over the reports that are made of strings.
//! No file is written: the shares go from memory to both sides' uploads.

ghost use Rattle.std.specs.Prelude.{◌≡◌, ◌≤◌, ◌*◌, length};
ghost use Rattle.std.specs.List.{All};
ghost use Rattle.shelf_io.specs.Seen.{link_seen};
ghost use Rattle.text_strings.specs.Lines.{most_strings};
ghost use Rattle.pair_run.specs.Keeps.{WalkKeeps};
ghost use Rattle.file_find.specs.Ranges.{IsInRange};
ghost use Rattle.file_find.specs.Walks.{settings_for, reports_for};

use crate::rules::{FindRules, pair_settings, walk_settings};
use pair_run::{Answer, PairError, run_pair};
use pair_shares::pair_lists;
use prefix_bits::Prefix;
use shelf_io::{Gate, Link};
use std::alloc::Global;
use std::sync::Wait;
use std::thread::Threads;

/// Makes both sides' shares of the strings, uploads them and walks over their reports. The promise is that of the walk over
/// the reports made of the strings, in their order. `Memory` is also want of memory for the shares; nothing is sent then.
pub(crate) fn walk_strings<R: Threads + Wait + Sync, L: Link, G: Gate>(
    rt: &R,
    alloc: Global,
    strings: &[Prefix],
    rules: &FindRules,
    link: &mut L,
    gate: &G,
) -> Result<Answer, PairError>
    requires rules { IsInRange rules.now }
    requires whole { All (λ string. length string ≡ 8 * rules.now.width) strings.now }
    requires few { length strings.now ≤ most_strings }
    ensures { WalkKeeps (settings_for rules.now) (reports_for rules.now strings.now)
        (link_seen L.Link link.old) (link_seen L.Link link.new) result }
{
    let (zeros, ones) = pair_lists(alloc, &pair_settings(rules), strings)?;
    let settings = walk_settings(rules);
    run_pair(
        rt,
        alloc,
        zeros,
        ones,
        rules.uploaders,
        &settings,
        link,
        gate,
    )
}
