//! `find`: the frequent strings of a strings file, from its name to the texts.
//! The file is read whole; then its shares are made in memory and walked over.

ghost use Rattle.shelf_io.specs.Seen.{sources};
ghost use Rattle.file_find.specs.Keeps.{FindKeeps};
ghost use Rattle.file_find.specs.Ranges.{IsInRange};

use crate::errors::FindError;
use crate::rules::FindRules;
use crate::telling::tell_strings;
use crate::texts::OutText;
use file_gen::strings_of;
use file_run::RunTexts;
use shelf_io::{Gate, Link, Shelf};
use std::alloc::Global;
use std::sync::Wait;
use std::thread::Threads;

/// Finds the frequent strings of the strings file of this name: its strings are read, both sides' shares of them are made as
/// `gen` makes them, with the line's coins, and the reports are walked over the link. No file is written.
///
/// The texts are the frequent strings with their counts, and on err the line of the walk's end. The errors, in this order:
/// `Strings` for the file, its length and its lines; `Walk` for the walk's own errors; `Memory` for want of memory for the texts.
/// The promise is `FindKeeps`, between what the shelf and the link told before and after. The shelf holds what it held (`kept`), a
/// failed shelf or link is named only where its count of faults rose (`shelf`, `link`), and nothing is sent where the strings are
/// refused (`unsent`). On a link that was true and idle neither `PeerMessage` nor `Views` comes (`agreed`). On every told shelf
/// (`told`) the walk is that over the reports made of the file's strings, in their order: on every told link the texts and each
/// error but a failed shelf, a failed link and want of memory are those of what both sides received (`heard`), and just its
/// messages are sent (`sent`); on a link that was true and idle it is the walk of the definition (`truly`), its answer is exactly
/// the strings that at least the threshold of lines hold, ascending, with their counts, and `Cap` comes exactly at the first level
/// below the last whose frequent prefixes, twice, are more than the cap (`finds`).
pub fn find_strings<R: Threads + Wait + Sync, H: Shelf, L: Link, G: Gate>(
    rt: &R,
    alloc: Global,
    name: &str,
    rules: &FindRules,
    shelf: &mut H,
    link: &mut L,
    gate: &G,
) -> Result<RunTexts, FindError>
    requires rules { IsInRange rules.now }
    ensures { FindKeeps name.now rules.now
        (sources H.Shelf L.Link shelf.old link.old) (sources H.Shelf L.Link shelf.new link.new) result }
{
    let strings = match strings_of(alloc, name, rules.width, shelf) {
        Ok(strings) => strings,
        Err(error) => return Err(FindError::Strings(error)),
    };
    tell_strings(rt, alloc, &strings, rules, OutText::Strings, link, gate)
}
