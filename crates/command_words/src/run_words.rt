//! The words of `run`: a threshold, the options of a walk and two names.
//! What they ask for is `run_words` of specs/Settings.antt.

ghost use Rattle.std.specs.Prelude.{◌≡◌, map, IfOk, IfSome};
ghost use Rattle.std.specs.Option.{option_map};
ghost use Rattle.std.specs.String.{string_bytes};
ghost use Rattle.clap.specs.Words.{found_of, rows_of};
ghost use Rattle.command_words.specs.Ranges.{AreInRange, IsThreshold};
ghost use Rattle.command_words.specs.Reading.{Reads};
ghost use Rattle.command_words.specs.Seen.{run_seen};
ghost use Rattle.command_words.specs.Settings.{run_found, run_words, threshold_of};

use crate::commands::run_command;
use crate::reading::{behind, file_name, found, needed_number};
use crate::walk_options::{WalkOptions, walk_options};
use crate::words_error::WordsError;
use clap::ArgMatches;
use field64::MODULUS;
use std::alloc::Global;

/// What `run` is asked for.
#[derive(Clone, Copy)]
pub struct RunAsked<'a> {
    /// How many reports a heavy string has at least: 1 to `MODULUS` - 1.
    pub threshold: u64,
    /// How the reports are taken and walked.
    pub options: WalkOptions,
    /// The name of side 0's share file.
    pub zero: &'a str,
    /// The name of side 1's share file, which may be the same.
    pub one: &'a str,
}

/// How many reports a heavy string has at least.
pub(crate) fn threshold(matches: &ArgMatches<'_>) -> Option<u64>
    ensures value { result ≡ threshold_of (rows_of (found_of matches.now)) }
    ensures within { IfSome result IsThreshold }
{
    needed_number(matches, "threshold", 1, MODULUS - 1)
}

// The settings of the matches.
fn run_asked<'a>(matches: &ArgMatches<'a>) -> Option<RunAsked<'a>>
    ensures value { option_map run_seen result ≡ run_found (rows_of (found_of matches.now)) }
    ensures threshold { IfSome result (λ asked. IsThreshold asked.threshold) }
    ensures options { IfSome result (λ asked. AreInRange asked.options) }
{
    let threshold = threshold(matches)?;
    let options = walk_options(matches)?;
    let zero = file_name(matches, "zero")?;
    let one = file_name(matches, "one")?;
    Some(RunAsked {
        threshold,
        options,
        zero,
        one,
    })
}

/// The words of `run`, the command first. Where they give no settings, the error is `Usage`; `Memory` is want of memory.
pub fn read_run(alloc: Global, words: &[String]) -> Result<RunAsked<'_>, WordsError>
    ensures reads { Reads run_seen (run_words (map string_bytes words.now)) result }
    ensures threshold { IfOk result (λ asked. IsThreshold asked.threshold) }
    ensures options { IfOk result (λ asked. AreInRange asked.options) }
{
    let Some(words) = behind(words, "run") else {
        return Err(WordsError::Usage);
    };
    let matches = found(run_command(alloc)?, words)?;
    match run_asked(&matches) {
        Some(asked) => Ok(asked),
        None => Err(WordsError::Usage),
    }
}
