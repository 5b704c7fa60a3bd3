//! The options that `run`, `find` and `make` have in common: how reports are taken and walked.
//! What they are by the words is `options_found` of specs/Settings.antt.

ghost use Rattle.std.specs.Prelude.{◌≡◌, IfSome};
ghost use Rattle.clap.specs.Words.{found_of, rows_of};
ghost use Rattle.command_words.specs.Ranges.{AreInRange, IsCap, IsUpTo};
ghost use Rattle.command_words.specs.Settings.{cache_of, cap_of, drill_of, options_found, uploaders_of, workers_of};

use crate::reading::{number_or, seed_or_zeros};
use clap::ArgMatches;
use seed_expand::Seed;

/// How reports are taken and walked.
#[derive(Clone, Copy, Debug, PartialEq, Eq)]
pub struct WalkOptions {
    /// How many work at each side's phases at once: 1 to 64, 4 where no word gives them.
    pub workers: u32,
    /// How many upload each side's reports at once: 1 to 64, 4 where no word gives them.
    pub uploaders: u32,
    /// The most candidates of a level: 2 to 65536, 4096 where no word gives them.
    pub cap: u32,
    /// The most entries of one shard of a side's cache: 1 to 65536, 4096 where no word gives them.
    pub cache: u32,
    /// The seed of the check's randomness, that of zeros where no word gives one.
    pub verify: Seed,
    /// Each claim of a tile whose number, counted from 1, is a multiple of this is given up: 0, never, where no word gives it.
    pub drill: u32,
}

// The workers, and where no word gives them 4.
fn workers(matches: &ArgMatches<'_>) -> Option<u32>
    ensures value { result ≡ workers_of (rows_of (found_of matches.now)) }
    ensures within { IfSome result (IsUpTo 64) }
{
    let workers = number_or(matches, "workers", 1, 64, 4)?;
    Some(workers as u32)
}

// The uploaders, and where no word gives them 4.
fn uploaders(matches: &ArgMatches<'_>) -> Option<u32>
    ensures value { result ≡ uploaders_of (rows_of (found_of matches.now)) }
    ensures within { IfSome result (IsUpTo 64) }
{
    let uploaders = number_or(matches, "uploaders", 1, 64, 4)?;
    Some(uploaders as u32)
}

// The cap, and where no word gives it 4096.
fn cap(matches: &ArgMatches<'_>) -> Option<u32>
    ensures value { result ≡ cap_of (rows_of (found_of matches.now)) }
    ensures within { IfSome result IsCap }
{
    let cap = number_or(matches, "cap", 2, 65536, 4096)?;
    Some(cap as u32)
}

// The entries of a shard, and where no word gives them 4096.
fn cache(matches: &ArgMatches<'_>) -> Option<u32>
    ensures value { result ≡ cache_of (rows_of (found_of matches.now)) }
    ensures within { IfSome result (IsUpTo 65536) }
{
    let entries = number_or(matches, "cache", 1, 65536, 4096)?;
    Some(entries as u32)
}

// The drill's number, and where no word gives it 0.
fn drill(matches: &ArgMatches<'_>) -> Option<u32>
    ensures value { result ≡ drill_of (rows_of (found_of matches.now)) }
{
    let every = number_or(matches, "drill", 0, 4294967295, 0)?;
    Some(every as u32)
}

/// The options of a walk. `None` where a value is none, or out of its range.
#[tactic(auto, unfolding(crate::specs::Settings::options_found))]
pub(crate) fn walk_options(matches: &ArgMatches<'_>) -> Option<WalkOptions>
    ensures value { result ≡ options_found (rows_of (found_of matches.now)) }
    ensures within { IfSome result AreInRange }
{
    let workers = workers(matches)?;
    let uploaders = uploaders(matches)?;
    let cap = cap(matches)?;
    let cache = cache(matches)?;
    let verify = seed_or_zeros(matches, "verify")?;
    let drill = drill(matches)?;
    Some(WalkOptions {
        workers,
        uploaders,
        cap,
        cache,
        verify,
        drill,
    })
}
