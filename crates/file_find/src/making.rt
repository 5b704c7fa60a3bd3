//! `make`: the walk over the workload, from the number of reports to the texts.
//! It reads and writes no file, so that it shows on any machine what a walk comes to.

ghost use Rattle.shelf_io.specs.Seen.{link_seen};
ghost use Rattle.file_find.specs.Keeps.{MakeKeeps};
ghost use Rattle.file_find.specs.Ranges.{IsInRange};

use crate::errors::FindError;
use crate::rules::FindRules;
use crate::telling::tell_strings;
use crate::texts::OutText;
use file_gen::GenError;
use file_run::RunTexts;
use shelf_io::{Gate, Link};
use std::alloc::Global;
use std::sync::Wait;
use std::thread::Threads;
use workload::workload;

/// Finds the frequent strings of the workload of so many reports, as `find_strings` does those of a file.
///
/// Out's text is `heavy H sum S` and a line feed: the number of frequent strings and the sum of their counts; err's is the line of
/// the walk's end. The errors, in this order: `Strings` of `Lines` of `TooMany` where the shares of the strings would not fit a
/// share file, or of `Memory`; `Walk`; `Memory`. The promise is `MakeKeeps`, between what the link told before and after, with the
/// same sentences as that of `find_strings`, over the strings of the workload.
pub fn make_walk<R: Threads + Wait + Sync, L: Link, G: Gate>(
    rt: &R,
    alloc: Global,
    reports: u32,
    rules: &FindRules,
    link: &mut L,
    gate: &G,
) -> Result<RunTexts, FindError>
    requires rules { IsInRange rules.now }
    ensures { MakeKeeps reports rules.now (link_seen L.Link link.old) (link_seen L.Link link.new) result }
{
    let strings = match workload(alloc, reports, rules.width) {
        Ok(strings) => strings,
        Err(error) => return Err(FindError::Strings(GenError::Lines(error))),
    };
    tell_strings(rt, alloc, &strings, rules, OutText::Summary, link, gate)
}
