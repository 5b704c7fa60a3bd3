//! The words of `eval`: a side, a prefix and a name.
//! What they ask for is `eval_words` of specs/Settings.antt.

ghost use Rattle.std.specs.Prelude.{◌≡◌, map};
ghost use Rattle.std.specs.Option.{option_map};
ghost use Rattle.std.specs.String.{string_bytes};
ghost use Rattle.clap.specs.Words.{found_of, rows_of};
ghost use Rattle.command_words.specs.Reading.{Reads};
ghost use Rattle.command_words.specs.Seen.{eval_seen};
ghost use Rattle.command_words.specs.Settings.{eval_found, eval_words};

use crate::commands::eval_command;
use crate::reading::{behind, file_name, found, word_of};
use crate::values::{read_prefix, read_side};
use crate::words_error::WordsError;
use clap::ArgMatches;
use prefix_bits::{Prefix, Side};
use std::alloc::Global;

/// What `eval` is asked for.
#[derive(Clone, Copy)]
pub struct EvalAsked<'a> {
    /// The side whose share file it is.
    pub side: Side,
    /// The prefix at which the shares are evaluated, 1 to `MOST_BITS` bits.
    pub prefix: Prefix,
    /// The name of the share file.
    pub file: &'a str,
}

// The settings of the matches.
fn eval_asked<'a>(matches: &ArgMatches<'a>) -> Option<EvalAsked<'a>>
    ensures value { option_map eval_seen result ≡ eval_found (rows_of (found_of matches.now)) }
{
    let side = read_side(word_of(matches, "side")?)?;
    let prefix = read_prefix(word_of(matches, "prefix")?)?;
    let file = file_name(matches, "file")?;
    Some(EvalAsked { side, prefix, file })
}

/// The words of `eval`, the command first. Where they give no settings, the error is `Usage`; `Memory` is want of memory.
pub fn read_eval(alloc: Global, words: &[String]) -> Result<EvalAsked<'_>, WordsError>
    ensures reads { Reads eval_seen (eval_words (map string_bytes words.now)) result }
{
    let Some(words) = behind(words, "eval") else {
        return Err(WordsError::Usage);
    };
    let matches = found(eval_command(alloc)?, words)?;
    match eval_asked(&matches) {
        Some(asked) => Ok(asked),
        None => Err(WordsError::Usage),
    }
}
