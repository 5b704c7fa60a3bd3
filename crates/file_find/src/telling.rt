//! From strings to the texts: the walk over what is made of them, and its answer spelled.
//! `find` and `make` differ in where the strings come from and in what out gets.

ghost use Rattle.std.specs.Prelude.{◌≡◌, ◌≤◌, ◌*◌, length};
ghost use Rattle.std.specs.List.{All};
ghost use Rattle.shelf_io.specs.Seen.{link_seen};
ghost use Rattle.text_strings.specs.Lines.{most_strings};
ghost use Rattle.file_find.specs.Keeps.{TellsKeeps};
ghost use Rattle.file_find.specs.Ranges.{IsInRange};
ghost use Rattle.file_find.specs.Texts.{text_of};

use crate::errors::FindError;
use crate::rules::FindRules;
use crate::texts::{OutText, texts_of};
use crate::walking::walk_strings;
use file_run::RunTexts;
use prefix_bits::Prefix;
use shelf_io::{Gate, Link};
use std::alloc::Global;
use std::sync::Wait;
use std::thread::Threads;

/// The texts of the walk over what is made of the strings.
pub(crate) fn tell_strings<R: Threads + Wait + Sync, L: Link, G: Gate>(
    rt: &R,
    alloc: Global,
    strings: &[Prefix],
    rules: &FindRules,
    out: OutText,
    link: &mut L,
    gate: &G,
) -> Result<RunTexts, FindError>
    requires rules { IsInRange rules.now }
    requires whole { All (λ string. length string ≡ 8 * rules.now.width) strings.now }
    requires few { length strings.now ≤ most_strings }
    ensures { TellsKeeps (text_of out) rules.now strings.now (link_seen L.Link link.old) (link_seen L.Link link.new) result }
{
    let answer = match walk_strings(rt, alloc, strings, rules, link, gate) {
        Ok(answer) => answer,
        Err(error) => return Err(FindError::Walk(error)),
    };
    match texts_of(alloc, rules.width, &answer, out) {
        Ok(texts) => Ok(texts),
        Err(_) => Err(FindError::Memory),
    }
}
