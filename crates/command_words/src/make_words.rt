//! The words of `make`: how many reports, a width, a threshold, the seed of the shares and the options of a walk.
//! What they ask for is `make_words` of specs/Settings.antt.

ghost use Rattle.std.specs.Prelude.{◌≡◌, ◌≤◌, map, IfOk, IfSome};
ghost use Rattle.std.specs.Option.{option_map};
ghost use Rattle.std.specs.String.{string_bytes};
ghost use Rattle.clap.specs.Words.{found_of, rows_of};
ghost use Rattle.command_words.specs.Ranges.{AreInRange, IsThreshold, IsWidth};
ghost use Rattle.command_words.specs.Reading.{Reads};
ghost use Rattle.command_words.specs.Seen.{make_seen};
ghost use Rattle.command_words.specs.Settings.{make_found, make_words, reports_of};

use crate::commands::make_command;
use crate::gen_words::width;
use crate::reading::{behind, found, needed_number, seed_or_zeros};
use crate::run_words::threshold;
use crate::walk_options::{WalkOptions, walk_options};
use crate::words_error::WordsError;
use clap::ArgMatches;
use seed_expand::Seed;
use std::alloc::Global;

/// What `make` is asked for.
#[derive(Clone, Copy)]
pub struct MakeAsked {
    /// How many reports are made, at most 1000000.
    pub reports: u32,
    /// The width of the strings in bytes, 1 to 32.
    pub width: u8,
    /// How many reports a heavy string has at least: 1 to `MODULUS` - 1.
    pub threshold: u64,
    /// The seed of all coins, that of zeros where no word gives one.
    pub master: Seed,
    /// How the reports are taken and walked.
    pub options: WalkOptions,
}

// How many reports are made.
fn reports(matches: &ArgMatches<'_>) -> Option<u32>
    ensures value { result ≡ reports_of (rows_of (found_of matches.now)) }
    ensures within { IfSome result (λ reports. reports ≤ 1000000) }
{
    let reports = needed_number(matches, "reports", 0, 1000000)?;
    Some(reports as u32)
}

// The settings of the matches.
fn make_asked(matches: &ArgMatches<'_>) -> Option<MakeAsked>
    ensures value { option_map make_seen result ≡ make_found (rows_of (found_of matches.now)) }
    ensures reports { IfSome result (λ asked. asked.reports ≤ 1000000) }
    ensures width { IfSome result (λ asked. IsWidth asked.width) }
    ensures threshold { IfSome result (λ asked. IsThreshold asked.threshold) }
    ensures options { IfSome result (λ asked. AreInRange asked.options) }
{
    let reports = reports(matches)?;
    let width = width(matches)?;
    let threshold = threshold(matches)?;
    let master = seed_or_zeros(matches, "master")?;
    let options = walk_options(matches)?;
    Some(MakeAsked {
        reports,
        width,
        threshold,
        master,
        options,
    })
}

/// The words of `make`, the command first. Where they give no settings, the error is `Usage`; `Memory` is want of memory.
pub fn read_make(alloc: Global, words: &[String]) -> Result<MakeAsked, WordsError>
    ensures reads { Reads make_seen (make_words (map string_bytes words.now)) result }
    ensures reports { IfOk result (λ asked. asked.reports ≤ 1000000) }
    ensures width { IfOk result (λ asked. IsWidth asked.width) }
    ensures threshold { IfOk result (λ asked. IsThreshold asked.threshold) }
    ensures options { IfOk result (λ asked. AreInRange asked.options) }
{
    let Some(words) = behind(words, "make") else {
        return Err(WordsError::Usage);
    };
    let matches = found(make_command(alloc)?, words)?;
    match make_asked(&matches) {
        Some(asked) => Ok(asked),
        None => Err(WordsError::Usage),
    }
}
