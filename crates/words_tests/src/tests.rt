//! The words of each command by worked examples: the settings that they give, and words that are refused.
//! A row has its words with one blank between each two; `@` at a word's end stands for a seed.

use command_words::{
    WalkOptions, WordsError, is_command, read_eval, read_find, read_gen, read_make, read_run,
};
use prefix_bits::Side;
use seed_expand::Seed;
use std::alloc::{AllocError, Global};

// The digits of the bytes 0, 1, .. 31, in both cases.
const DIGITS: &str = "000102030405060708090a0B0c0D0e0F101112131415161718191A1b1C1d1E1f";

const COUNTED: [u8; 32] = [
    0, 1, 2, 3, 4, 5, 6, 7, 8, 9, 10, 11, 12, 13, 14, 15, 16, 17, 18, 19, 20, 21, 22, 23, 24, 25,
    26, 27, 28, 29, 30, 31,
];

// The options of a walk where no word gives one.
const DEFAULTS: &str = "workers 4 uploaders 4 cap 4096 cache 4096 verify zeros drill 0";

// Words that give no other option of a walk, and the settings that they give but for those options.
const TAKEN: [(&str, &str); 24] = [
    ("eval 1 011 f1", "side 1 bits 3 file f1"),
    ("eval 0 1 -- -f", "side 0 bits 1 file -f"),
    (
        "gen --width 32 --master @ --tag 9 s f0 f1",
        "width 32 master counted tag 9 strings s zero f0 one f1",
    ),
    (
        "gen s --tag=18446744073709551615 f0 --master=@ f1 --width=1",
        "width 1 master counted tag 18446744073709551615 strings s zero f0 one f1",
    ),
    (
        "gen --master @ --width 002 s f0 f1",
        "width 2 master counted tag 0 strings s zero f0 one f1",
    ),
    ("run --threshold 2 f0 f1", "threshold 2 zero f0 one f1"),
    (
        "run f0 --threshold=18446744069414584320 f0",
        "threshold 18446744069414584320 zero f0 one f0",
    ),
    (
        "run f0 f1 --threshold 00000000000000000001",
        "threshold 1 zero f0 one f1",
    ),
    (
        "find --width 2 --threshold 2 s",
        "width 2 threshold 2 master zeros tag 0 strings s",
    ),
    (
        "find s --tag 7 --threshold 1 --master @ --width 32",
        "width 32 threshold 1 master counted tag 7 strings s",
    ),
    (
        "make --reports 0 --width 1 --threshold 1",
        "reports 0 width 1 threshold 1 master zeros",
    ),
    (
        "make --threshold 8 --width 2 --master=@ --reports=1000000",
        "reports 1000000 width 2 threshold 8 master counted",
    ),
    ("eval 2 1 f", "usage"),
    ("eval 1 012 f", "usage"),
    ("eval 1  f", "usage"),
    ("eval 1 1 ", "usage"),
    ("eval 1 1 -f", "usage"),
    ("eval 1 1", "usage"),
    ("eval 1 1 f g", "usage"),
    ("eval 1 1 f --width 2", "usage"),
    ("eval --help", "usage"),
    ("eval 1 1 f -h", "usage"),
    ("Eval 1 1 f", "usage"),
    ("eval", "usage"),
];

// Options of a walk, and what they are then. They stand behind words that give settings of `run`, of `find` and of `make`.
const OPTIONS: [(&str, &str); 24] = [
    (
        "--workers 1",
        "workers 1 uploaders 4 cap 4096 cache 4096 verify zeros drill 0",
    ),
    (
        "--workers=64",
        "workers 64 uploaders 4 cap 4096 cache 4096 verify zeros drill 0",
    ),
    (
        "--uploaders 64 --cap 2",
        "workers 4 uploaders 64 cap 2 cache 4096 verify zeros drill 0",
    ),
    (
        "--cap 65536 --uploaders 1",
        "workers 4 uploaders 1 cap 65536 cache 4096 verify zeros drill 0",
    ),
    (
        "--cache=65536 --drill 4294967295",
        "workers 4 uploaders 4 cap 4096 cache 65536 verify zeros drill 4294967295",
    ),
    (
        "--verify @ --cache 1 --drill=0",
        "workers 4 uploaders 4 cap 4096 cache 1 verify counted drill 0",
    ),
    (
        "--drill 3 --verify=@ --cache 5 --cap 6 --uploaders 7 --workers 8",
        "workers 8 uploaders 7 cap 6 cache 5 verify counted drill 3",
    ),
    ("--workers 0", "usage"),
    ("--workers 65", "usage"),
    ("--uploaders 0", "usage"),
    ("--uploaders 65", "usage"),
    ("--cap 1", "usage"),
    ("--cap 65537", "usage"),
    ("--cache 0", "usage"),
    ("--cache 65537", "usage"),
    ("--drill 4294967296", "usage"),
    ("--verify 00", "usage"),
    ("--verify 0@", "usage"),
    ("--drill", "usage"),
    ("--drill=", "usage"),
    ("--drill 1 --drill 1", "usage"),
    ("--drills 1", "usage"),
    ("--help", "usage"),
    ("more", "usage"),
];

// Words of `gen`, `run`, `find` and `make` that are refused: a value out of its range or no value, an option missing, given twice
// or unknown, names that are equal, empty or missing.
const REFUSED: [&str; 56] = [
    "",
    "upgrade f g",
    "gen",
    "gen --master @ s f0 f1",
    "gen --width 2 s f0 f1",
    "gen --width 0 --master @ s f0 f1",
    "gen --width 33 --master @ s f0 f1",
    "gen --width 2 --width 2 --master @ s f0 f1",
    "gen --width 2 --master @ --master @ s f0 f1",
    "gen --width 2 --master @ --tag 1 --tag 1 s f0 f1",
    "gen --width 2 --master @ --tag 18446744073709551616 s f0 f1",
    "gen --width 2 --master @ --tag 000000000000000000001 s f0 f1",
    "gen --width 2 --master @ s f0 f1 --tag",
    "gen --width +2 --master @ s f0 f1",
    "gen --width -2 --master @ s f0 f1",
    "gen --width 2 --master 0@ s f0 f1",
    "gen --width 2 --master g s f0 f1",
    "gen --width 2 --master @ s s f1",
    "gen --width 2 --master @ s f0 s",
    "gen --width 2 --master @ s f0 f0",
    "gen --width 2 --master @ s f0",
    "gen --width 2 --master @ s f0 f1 f2",
    "gen --width 2 --master @ s f0 ",
    "gen --width 2 --master @ --threshold 1 s f0 f1",
    "gen --width 2 --master @ --verify @ s f0 f1",
    "gen --width 2 --master @ s f0 f1 --help",
    "run",
    "run f0 f1",
    "run --threshold 0 f0 f1",
    "run --threshold 18446744069414584321 f0 f1",
    "run --threshold 2 --threshold 2 f0 f1",
    "run --threshold  f0 f1",
    "run --threshold 2 f0",
    "run --threshold 2 -f f1",
    "run --threshold 2 f0 ",
    "run --threshold 2 --width 2 f0 f1",
    "run --threshold 2 --tag 2 f0 f1",
    "find",
    "find --threshold 2 s",
    "find --width 2 s",
    "find --width 2 --threshold 2",
    "find --width 2 --threshold 2 ",
    "find --width 33 --threshold 2 s",
    "find --width 2 --threshold 0 s",
    "find --width 2 --threshold 2 --tag 1 --tag 1 s",
    "find --width 2 --threshold 2 --reports 2 s",
    "make",
    "make --width 2 --threshold 8",
    "make --reports 5 --threshold 8",
    "make --reports 5 --width 2",
    "make --reports 1000001 --width 2 --threshold 8",
    "make --reports 5 --reports 5 --width 2 --threshold 8",
    "make --reports 5 --width 2 --threshold 8 --tag 0",
    "make --reports 5 --width 2 --threshold 8 --master",
    "make --reports 5 --width 2 --threshold 8 s",
    "make -r 5 --width 2 --threshold 8",
];

// Words that give settings, to which options are added.
const WALKS: [&str; 3] = [
    "run --threshold 2 f0 f1",
    "find --width 2 --threshold 2 s",
    "make --reports 5 --width 2 --threshold 8",
];

// The words of a row, behind those of another where that is not empty.
fn words_of(alloc: Global, first: &str, row: &str) -> Result<Vec<String>, AllocError> {
    let mut words = Vec::new(alloc);
    for part in [first, row] {
        if part.is_empty() {
            continue;
        }
        for word in part.split(' ') {
            match word.strip_suffix('@') {
                Some(front) => words.push(format!(in alloc; "{front}{DIGITS}")?)?,
                None => words.push(String::from_str(alloc, word)?)?,
            }
        }
    }
    Ok(words)
}

// A seed of the rows by its name.
fn seed_name(seed: Seed) -> &'static str {
    if seed == Seed([0; 32]) {
        "zeros"
    } else if seed == Seed(COUNTED) {
        "counted"
    } else {
        "another"
    }
}

// Why words give no settings.
fn error_name(alloc: Global, error: WordsError) -> Result<(String, String), AllocError> {
    let name = match error {
        WordsError::Usage => "usage",
        WordsError::Memory => "memory",
    };
    Ok((
        String::from_str(alloc, name)?,
        String::from_str(alloc, name)?,
    ))
}

// The options of a walk.
fn shown_options(alloc: Global, options: &WalkOptions) -> Result<String, AllocError> {
    let workers = options.workers;
    let uploaders = options.uploaders;
    let cap = options.cap;
    let cache = options.cache;
    let verify = seed_name(options.verify);
    let drill = options.drill;
    format!(in alloc;
        "workers {workers} uploaders {uploaders} cap {cap} cache {cache} verify {verify} drill {drill}"
    )
}

// The settings of `run`, and the options of its walk.
fn shown_run(alloc: Global, words: &[String]) -> Result<(String, String), AllocError> {
    match read_run(alloc, words) {
        Ok(asked) => {
            let threshold = asked.threshold;
            let zero = asked.zero;
            let one = asked.one;
            let text = format!(in alloc; "threshold {threshold} zero {zero} one {one}")?;
            Ok((text, shown_options(alloc, &asked.options)?))
        }
        Err(error) => error_name(alloc, error),
    }
}

// The settings of `find`, and the options of its walk.
fn shown_find(alloc: Global, words: &[String]) -> Result<(String, String), AllocError> {
    match read_find(alloc, words) {
        Ok(asked) => {
            let width = asked.width;
            let threshold = asked.threshold;
            let master = seed_name(asked.master);
            let tag = asked.tag;
            let strings = asked.strings;
            let text = format!(in alloc;
                "width {width} threshold {threshold} master {master} tag {tag} strings {strings}"
            )?;
            Ok((text, shown_options(alloc, &asked.options)?))
        }
        Err(error) => error_name(alloc, error),
    }
}

// The settings of `make`, and the options of its walk.
fn shown_make(alloc: Global, words: &[String]) -> Result<(String, String), AllocError> {
    match read_make(alloc, words) {
        Ok(asked) => {
            let reports = asked.reports;
            let width = asked.width;
            let threshold = asked.threshold;
            let master = seed_name(asked.master);
            let text = format!(in alloc;
                "reports {reports} width {width} threshold {threshold} master {master}"
            )?;
            Ok((text, shown_options(alloc, &asked.options)?))
        }
        Err(error) => error_name(alloc, error),
    }
}

// The settings of `gen`.
fn shown_gen(alloc: Global, words: &[String]) -> Result<(String, String), AllocError> {
    match read_gen(alloc, words) {
        Ok(asked) => {
            let width = asked.width;
            let master = seed_name(asked.master);
            let tag = asked.tag;
            let strings = asked.strings;
            let zero = asked.zero;
            let one = asked.one;
            let text = format!(in alloc;
                "width {width} master {master} tag {tag} strings {strings} zero {zero} one {one}"
            )?;
            Ok((text, String::from_str(alloc, DEFAULTS)?))
        }
        Err(error) => error_name(alloc, error),
    }
}

// The settings of `eval`.
fn shown_eval(alloc: Global, words: &[String]) -> Result<(String, String), AllocError> {
    match read_eval(alloc, words) {
        Ok(asked) => {
            let side = if asked.side == Side::Zero { 0 } else { 1 };
            let bits = asked.prefix.len();
            let file = asked.file;
            let text = format!(in alloc; "side {side} bits {bits} file {file}")?;
            Ok((text, String::from_str(alloc, DEFAULTS)?))
        }
        Err(error) => error_name(alloc, error),
    }
}

// The settings of words by their command, and the options of a walk, or why there are none.
fn shown(alloc: Global, words: &[String]) -> Result<(String, String), AllocError> {
    if is_command(words, "gen") {
        shown_gen(alloc, words)
    } else if is_command(words, "run") {
        shown_run(alloc, words)
    } else if is_command(words, "find") {
        shown_find(alloc, words)
    } else if is_command(words, "make") {
        shown_make(alloc, words)
    } else {
        shown_eval(alloc, words)
    }
}

#[test]
fn settings_by_their_words(rt: HostRuntime) -> Result<(), AllocError> {
    for (row, expected) in TAKEN {
        let words = words_of(rt.alloc(), "", row)?;
        let (text, options) = shown(rt.alloc(), &words)?;
        assert!(rt; text.as_str() == expected, "{row} gives {text}");
        let rest = if expected == "usage" {
            "usage"
        } else {
            DEFAULTS
        };
        assert!(rt; options.as_str() == rest, "{row} gives {options}");
    }
    Ok(())
}

#[test]
fn options_of_each_walk(rt: HostRuntime) -> Result<(), AllocError> {
    for first in WALKS {
        for (row, expected) in OPTIONS {
            let words = words_of(rt.alloc(), first, row)?;
            let (_, options) = shown(rt.alloc(), &words)?;
            assert!(rt;
                options.as_str() == expected,
                "{first} {row} gives {options}"
            );
        }
    }
    Ok(())
}

#[test]
fn words_that_give_no_settings(rt: HostRuntime) -> Result<(), AllocError> {
    for row in REFUSED {
        let words = words_of(rt.alloc(), "", row)?;
        let (text, _) = shown(rt.alloc(), &words)?;
        assert!(rt; text.as_str() == "usage", "{row} gives {text}");
    }
    Ok(())
}

// Whether `eval` of a prefix of so many zeros is read.
fn reads_zeros(alloc: Global, count: usize) -> Result<bool, AllocError> {
    let mut prefix = String::new(alloc);
    for _ in 0..count {
        prefix.push_str("0")?;
    }
    let row = format!(in alloc; "eval 0 {prefix} f0")?;
    let words = words_of(alloc, "", row.as_str())?;
    Ok(read_eval(alloc, &words).is_ok())
}

#[test]
fn the_longest_prefix(rt: HostRuntime) -> Result<(), AllocError> {
    assert!(rt; reads_zeros(rt.alloc(), 256)?);
    assert!(rt; !reads_zeros(rt.alloc(), 257)?);
    Ok(())
}
