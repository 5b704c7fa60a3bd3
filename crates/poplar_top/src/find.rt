//! `find` and `make`: what a search for the frequent strings is told, and why it gives no text.
//! The work is `file_find`'s; this gives its errors the reasons to stop that all commands have.

ghost use Rattle.std.specs.Prelude.{◌≡◌};
ghost use Rattle.file_find.specs.Ranges.{IsInRange};
ghost use Rattle.command_words.specs.Ranges.{AreInRange, IsThreshold, IsWidth};
ghost use Rattle.command_words.specs.Seen.{find_seen, make_seen};
ghost use Rattle.poplar_top.specs.FindOutcomes.{find_rules, make_rules};
ghost use Rattle.poplar_top.specs.FindStops.{find_stop};

use crate::run::stop_of_walk;
use crate::stop::{Stop, stop_of_gen};
use command_words::{FindAsked, MakeAsked};
use file_find::{FindError, FindRules};

/// What the search of `find` is told.
pub(crate) fn find_rules(asked: &FindAsked<'_>) -> FindRules
    requires width { IsWidth asked.now.width }
    requires threshold { IsThreshold asked.now.threshold }
    requires options { AreInRange asked.now.options }
    ensures value { result ≡ find_rules (find_seen asked.now) }
    ensures range { IsInRange result }
{
    FindRules {
        width: asked.width,
        threshold: asked.threshold,
        master: asked.master,
        tag: asked.tag,
        workers: asked.options.workers,
        uploaders: asked.options.uploaders,
        cap: asked.options.cap,
        cache: asked.options.cache,
        verify: asked.options.verify,
        drill: asked.options.drill,
    }
}

/// What the search of `make` is told, whose tag is 0.
pub(crate) fn make_rules(asked: &MakeAsked) -> FindRules
    requires width { IsWidth asked.now.width }
    requires threshold { IsThreshold asked.now.threshold }
    requires options { AreInRange asked.now.options }
    ensures value { result ≡ make_rules (make_seen asked.now) }
    ensures range { IsInRange result }
{
    FindRules {
        width: asked.width,
        threshold: asked.threshold,
        master: asked.master,
        tag: 0,
        workers: asked.options.workers,
        uploaders: asked.options.uploaders,
        cap: asked.options.cap,
        cache: asked.options.cache,
        verify: asked.options.verify,
        drill: asked.options.drill,
    }
}

/// Why a search without texts gives none.
pub(crate) fn stop_of_find(error: FindError) -> Stop
    ensures value { result ≡ find_stop error }
{
    match error {
        FindError::Strings(error) => stop_of_gen(error),
        FindError::Walk(error) => stop_of_walk(error),
        FindError::Memory => Stop::Memory,
    }
}
