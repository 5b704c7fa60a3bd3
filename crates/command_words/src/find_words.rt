//! The words of `find`: a width, a threshold, the seed and the tag of the shares, the options of a walk and a name.
//! What they ask for is `find_words` of specs/Settings.antt.

ghost use Rattle.std.specs.Prelude.{◌≡◌, map, IfOk, IfSome};
ghost use Rattle.std.specs.Option.{option_map};
ghost use Rattle.std.specs.String.{string_bytes};
ghost use Rattle.clap.specs.Words.{found_of, rows_of};
ghost use Rattle.command_words.specs.Ranges.{AreInRange, IsThreshold, IsWidth};
ghost use Rattle.command_words.specs.Reading.{Reads};
ghost use Rattle.command_words.specs.Seen.{find_seen};
ghost use Rattle.command_words.specs.Settings.{find_found, find_words};

use crate::commands::find_command;
use crate::gen_words::{tag, width};
use crate::reading::{behind, file_name, found, seed_or_zeros};
use crate::run_words::threshold;
use crate::walk_options::{WalkOptions, walk_options};
use crate::words_error::WordsError;
use clap::ArgMatches;
use seed_expand::Seed;
use std::alloc::Global;

/// What `find` is asked for.
#[derive(Clone, Copy)]
pub struct FindAsked<'a> {
    /// The width of the strings in bytes, 1 to 32.
    pub width: u8,
    /// How many reports a heavy string has at least: 1 to `MODULUS` - 1.
    pub threshold: u64,
    /// The seed of all coins, that of zeros where no word gives one.
    pub master: Seed,
    /// The tag of the reports' ids, 0 where no word gives one.
    pub tag: u64,
    /// How the reports are taken and walked.
    pub options: WalkOptions,
    /// The name of the strings file.
    pub strings: &'a str,
}

// The settings of the matches.
fn find_asked<'a>(matches: &ArgMatches<'a>) -> Option<FindAsked<'a>>
    ensures value { option_map find_seen result ≡ find_found (rows_of (found_of matches.now)) }
    ensures width { IfSome result (λ asked. IsWidth asked.width) }
    ensures threshold { IfSome result (λ asked. IsThreshold asked.threshold) }
    ensures options { IfSome result (λ asked. AreInRange asked.options) }
{
    let width = width(matches)?;
    let threshold = threshold(matches)?;
    let master = seed_or_zeros(matches, "master")?;
    let tag = tag(matches)?;
    let options = walk_options(matches)?;
    let strings = file_name(matches, "strings")?;
    Some(FindAsked {
        width,
        threshold,
        master,
        tag,
        options,
        strings,
    })
}

/// The words of `find`, the command first. Where they give no settings, the error is `Usage`; `Memory` is want of memory.
pub fn read_find(alloc: Global, words: &[String]) -> Result<FindAsked<'_>, WordsError>
    ensures reads { Reads find_seen (find_words (map string_bytes words.now)) result }
    ensures width { IfOk result (λ asked. IsWidth asked.width) }
    ensures threshold { IfOk result (λ asked. IsThreshold asked.threshold) }
    ensures options { IfOk result (λ asked. AreInRange asked.options) }
{
    let Some(words) = behind(words, "find") else {
        return Err(WordsError::Usage);
    };
    let matches = found(find_command(alloc)?, words)?;
    match find_asked(&matches) {
        Some(asked) => Ok(asked),
        None => Err(WordsError::Usage),
    }
}
