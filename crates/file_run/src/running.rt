//! A run over two share files, from their names to the texts.
//! The files are read one after the other and their shares collected; then their reports are walked over the link.

ghost use Rattle.shelf_io.specs.Seen.{sources};
ghost use Rattle.file_run.specs.Keeps.{RunKeeps};
ghost use Rattle.file_run.specs.Ranges.{IsInRange};

use crate::both_files::collect_both;
use crate::errors::RunError;
use crate::rules::{RunRules, walk_settings};
use crate::texts::{RunTexts, texts_of};
use pair_run::walk_collected;
use shelf_io::{Gate, Link, Shelf};
use std::alloc::Global;
use std::sync::Wait;
use std::thread::Threads;

/// Runs the two share files of these names: side 0's is read, then side 1's, each in lists of at most 1,024 shares that the
/// side's uploaders upload, and the reports that both hold without clash are walked over the link, each side by so many workers as
/// the rules say. The gate is told of each upload, and asked behind the drill of the rules. It waits.
///
/// The texts are the frequent strings with their counts, and on err a line for each malformed record, side 0's first, and the
/// line of the walk's end. The errors, in this order: `File` for side 0's file, then for side 1's; `Widths`; `Walk` for the
/// walk's own errors; `Memory` for want of memory for the texts. The promise is `RunKeeps`, between what the shelf and the link
/// told before and after. The shelf holds what it held (`kept`), a failed shelf or link is named only where its count of faults
/// rose (`shelf`, `link`), and nothing is sent where a file is refused or the widths differ (`unsent`). On every told shelf the
/// walk is begun only where the files go together (`begins`), just its messages are sent (`sent`), and where the link tells too,
/// the texts and each error but a failed shelf, a failed link and want of memory are those of what the files hold and of what
/// both sides received in this call (`heard`). On a link that was true and idle the walk is the one of the definition (`truly`),
/// generated reports give exactly the frequent strings (`honest`), and, on every shelf, neither `PeerMessage` nor `Views` comes
/// (`agreed`).
pub fn run_files<R: Threads + Wait + Sync, H: Shelf, L: Link, G: Gate>(
    rt: &R,
    alloc: Global,
    zero: &str,
    one: &str,
    rules: &RunRules,
    shelf: &mut H,
    link: &mut L,
    gate: &G,
) -> Result<RunTexts, RunError>
    requires rules { IsInRange rules.now }
    ensures { RunKeeps zero.now one.now rules.now
        (sources H.Shelf L.Link shelf.old link.old) (sources H.Shelf L.Link shelf.new link.new) result }
{
    let read = match collect_both(rt, alloc, shelf, zero, one, rules.uploaders, gate) {
        Ok(read) => read,
        Err(error) => return Err(error),
    };
    let width = read.width;
    let settings = walk_settings(rules, width);
    let walked = walk_collected(rt, alloc, read.collect, &settings, link, gate);
    let answer = match walked {
        Ok(answer) => answer,
        Err(error) => return Err(RunError::Walk(error)),
    };
    let malformed0 = read.malformed0.as_slice();
    let malformed1 = read.malformed1.as_slice();
    match texts_of(alloc, width, malformed0, malformed1, &answer) {
        Ok(texts) => Ok(texts),
        Err(_) => Err(RunError::Memory),
    }
}
