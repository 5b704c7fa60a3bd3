//! The crate's reading of words, and the values found by it.
//! Each call is the reading of its name in specs/Reading.antt.

ghost use Rattle.std.specs.Prelude.{◌≡◌, ◌≤◌, ◌<◌, ◌^◌, map, true, IfSome};
ghost use Rattle.std.specs.Option.{option_map};
ghost use Rattle.std.specs.String.{string_bytes};
ghost use Rattle.clap.specs.Words.{app_of, found_of, is_simple_and_free, rows_of};
ghost use Rattle.command_words.specs.Reading.{behind, found_in, is_first, free, needed, word_of, Reads};
ghost use Rattle.command_words.specs.Values.{number_in, name_of, no_seed, seed_of};

use crate::values::{is_name, read_number, read_seed};
use crate::words_error::{WordsError, error_of};
use clap::{ArgMatches, Command};
use seed_expand::Seed;

/// Whether the first word is this command.
pub fn is_command(words: &[String], command: &str) -> bool
    ensures value { result ≡ is_first command.now (map string_bytes words.now) }
{
    !words.is_empty() && words[0].as_str() == command
}

/// The words behind a command, where the first word is that command.
pub(crate) fn behind<'a>(words: &'a [String], command: &str) -> Option<&'a [String]>
    ensures value { option_map (λ rest. map string_bytes rest.now) result ≡ behind command.now (map string_bytes words.now) }
{
    if !is_command(words, command) {
        return None;
    }
    Some(&words[1..])
}

/// What the crate finds in the words behind a command.
pub(crate) fn found<'a>(
    command: Command<'a>,
    words: &'a [String],
) -> Result<ArgMatches<'a>, WordsError>
    requires simple { is_simple_and_free (app_of command) ≡ true }
    ensures reads { Reads (λ m. rows_of (found_of m)) (found_in (app_of command.entry) (map string_bytes words.now)) result }
{
    match command.try_get_matches_from(words) {
        Ok(matches) => Ok(matches),
        Err(error) => Err(error_of(&error)),
    }
}

/// The word found under a name.
pub(crate) fn word_of<'a>(matches: &ArgMatches<'a>, name: &str) -> Option<&'a str>
    ensures value { option_map (λ word. word.now) result ≡ word_of name.now (rows_of (found_of matches.now)) }
{
    matches.get_str(name)
}

/// A word found under a name, as a name of a file, which is not empty.
pub(crate) fn file_name<'a>(matches: &ArgMatches<'a>, name: &str) -> Option<&'a str>
    ensures value { option_map (λ word. word.now) result ≡ needed name_of (word_of name.now (rows_of (found_of matches.now))) }
{
    let word = word_of(matches, name)?;
    if is_name(word) { Some(word) } else { None }
}

/// The number found under a name.
pub(crate) fn needed_number(
    matches: &ArgMatches<'_>,
    name: &str,
    least: u64,
    most: u64,
) -> Option<u64>
    ensures value { result ≡ needed (number_in least most) (word_of name.now (rows_of (found_of matches.now))) }
    ensures within { IfSome result (λ number. (least ≤ number) × (number ≤ most)) }
{
    read_number(word_of(matches, name)?, least, most)
}

/// The number found under a name, and where there is none the other.
pub(crate) fn number_or(
    matches: &ArgMatches<'_>,
    name: &str,
    least: u64,
    most: u64,
    other: u64,
) -> Option<u64>
    requires other { (least ≤ other) × (other ≤ most) }
    ensures value { result ≡ free (number_in least most) other (word_of name.now (rows_of (found_of matches.now))) }
    ensures within { IfSome result (λ number. (least ≤ number) × (number ≤ most)) }
{
    match word_of(matches, name) {
        Some(word) => read_number(word, least, most),
        None => Some(other),
    }
}

/// The seed found under a name.
pub(crate) fn needed_seed(matches: &ArgMatches<'_>, name: &str) -> Option<Seed>
    ensures value { result ≡ needed seed_of (word_of name.now (rows_of (found_of matches.now))) }
{
    read_seed(word_of(matches, name)?)
}

/// The seed found under a name, and where there is none that of zeros.
pub(crate) fn seed_or_zeros(matches: &ArgMatches<'_>, name: &str) -> Option<Seed>
    ensures value { result ≡ free seed_of no_seed (word_of name.now (rows_of (found_of matches.now))) }
{
    match word_of(matches, name) {
        Some(word) => read_seed(word),
        None => Some(Seed([0; 32])),
    }
}
