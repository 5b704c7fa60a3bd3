//! The words of `gen`: its options and three names.
//! What they ask for is `gen_words` of specs/Settings.antt.

ghost use Rattle.std.specs.Prelude.{◌≡◌, ◌≢◌, map, IfOk, IfSome};
ghost use Rattle.std.specs.Option.{option_map};
ghost use Rattle.std.specs.String.{string_bytes};
ghost use Rattle.clap.specs.Words.{found_of, rows_of};
ghost use Rattle.command_words.specs.Ranges.{IsWidth};
ghost use Rattle.command_words.specs.Reading.{Reads};
ghost use Rattle.command_words.specs.Seen.{gen_seen};
ghost use Rattle.command_words.specs.Settings.{gen_found, gen_words, names_found, tag_of, width_of};

use crate::commands::gen_command;
use crate::reading::{behind, file_name, found, needed_number, needed_seed, number_or};
use crate::words_error::WordsError;
use clap::ArgMatches;
use seed_expand::Seed;
use std::alloc::Global;

/// What `gen` is asked for.
#[derive(Clone, Copy)]
pub struct GenAsked<'a> {
    /// The width of the strings in bytes, 1 to 32.
    pub width: u8,
    /// The seed of all coins.
    pub master: Seed,
    /// The tag of the reports' ids, 0 where no word gives one.
    pub tag: u64,
    /// The name of the strings file.
    pub strings: &'a str,
    /// The name of the file for side 0's shares.
    pub zero: &'a str,
    /// The name of the file for side 1's shares. The three names differ pairwise.
    pub one: &'a str,
}

/// The width of the strings in bytes.
pub(crate) fn width(matches: &ArgMatches<'_>) -> Option<u8>
    ensures value { result ≡ width_of (rows_of (found_of matches.now)) }
    ensures within { IfSome result IsWidth }
{
    let width = needed_number(matches, "width", 1, 32)?;
    Some(width as u8)
}

/// The tag of the reports' ids, and where no word gives one 0.
pub(crate) fn tag(matches: &ArgMatches<'_>) -> Option<u64>
    ensures value { result ≡ tag_of (rows_of (found_of matches.now)) }
{
    number_or(matches, "tag", 0, 18446744073709551615, 0)
}

// The three names, which differ pairwise.
fn names<'a>(matches: &ArgMatches<'a>) -> Option<(&'a str, &'a str, &'a str)>
    ensures value { option_map (λ names. (names.0.now, names.1.now, names.2.now)) result ≡ names_found (rows_of (found_of matches.now)) }
    ensures differ { IfSome result (λ names. names.1.now ≢ names.2.now) }
{
    let strings = file_name(matches, "strings")?;
    let zero = file_name(matches, "zero")?;
    let one = file_name(matches, "one")?;
    if strings != zero && strings != one && zero != one {
        Some((strings, zero, one))
    } else {
        None
    }
}

// The settings of the matches.
fn gen_asked<'a>(matches: &ArgMatches<'a>) -> Option<GenAsked<'a>>
    ensures value { option_map gen_seen result ≡ gen_found (rows_of (found_of matches.now)) }
    ensures width { IfSome result (λ asked. IsWidth asked.width) }
    ensures differ { IfSome result (λ asked. asked.zero.now ≢ asked.one.now) }
{
    let width = width(matches)?;
    let master = needed_seed(matches, "master")?;
    let tag = tag(matches)?;
    let (strings, zero, one) = names(matches)?;
    Some(GenAsked {
        width,
        master,
        tag,
        strings,
        zero,
        one,
    })
}

/// The words of `gen`, the command first. Where they give no settings, the error is `Usage`; `Memory` is want of memory.
pub fn read_gen(alloc: Global, words: &[String]) -> Result<GenAsked<'_>, WordsError>
    ensures reads { Reads gen_seen (gen_words (map string_bytes words.now)) result }
    ensures width { IfOk result (λ asked. IsWidth asked.width) }
    ensures differ { IfOk result (λ asked. asked.zero.now ≢ asked.one.now) }
{
    let Some(words) = behind(words, "gen") else {
        return Err(WordsError::Usage);
    };
    let matches = found(gen_command(alloc)?, words)?;
    match gen_asked(&matches) {
        Some(asked) => Ok(asked),
        None => Err(WordsError::Usage),
    }
}
