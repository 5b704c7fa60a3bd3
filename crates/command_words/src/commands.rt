//! The crate's command for each command of the program, with the table of its arguments.
//! The same tables stand in specs/Commands.antt.

ghost use Rattle.std.specs.Prelude.{◌≡◌, fold, IfOk};
ghost use Rattle.clap.specs.Words.{app_of, with_rule};
ghost use Rattle.command_words.specs.Commands.{eval_app, find_app, gen_app, make_app, run_app, walk_rules};

use crate::arguments::Argument::{Free, Needed, Word};
use crate::arguments::{plain_command, with_arguments};
use clap::Command;
use std::alloc::{AllocError, Global};

// The command with the options that each walk has.
fn with_walk_options<'a>(alloc: Global, command: Command<'a>) -> Result<Command<'a>, AllocError>
    ensures app { IfOk result (λ c. app_of c ≡ fold with_rule (app_of command.entry) walk_rules) }
{
    let options = [
        Free("workers"),
        Free("uploaders"),
        Free("cap"),
        Free("cache"),
        Free("verify"),
        Free("drill"),
    ];
    with_arguments(alloc, command, options.as_slice())
}

/// `eval SIDE PREFIX FILE`. `AllocError` is want of memory.
pub(crate) fn eval_command<'a>(alloc: Global) -> Result<Command<'a>, AllocError>
    ensures app { IfOk result (λ c. app_of c ≡ eval_app) }
{
    let arguments = [Word("side"), Word("prefix"), Word("file")];
    with_arguments(alloc, plain_command(alloc, "eval"), arguments.as_slice())
}

/// `gen --width N --master SEED [--tag N] STRINGS OUT0 OUT1`. `AllocError` is want of memory.
pub(crate) fn gen_command<'a>(alloc: Global) -> Result<Command<'a>, AllocError>
    ensures app { IfOk result (λ c. app_of c ≡ gen_app) }
{
    let arguments = [
        Word("strings"),
        Word("zero"),
        Word("one"),
        Needed("width"),
        Needed("master"),
        Free("tag"),
    ];
    with_arguments(alloc, plain_command(alloc, "gen"), arguments.as_slice())
}

/// `run --threshold N FILE0 FILE1` with the options of a walk. `AllocError` is want of memory.
pub(crate) fn run_command<'a>(alloc: Global) -> Result<Command<'a>, AllocError>
    ensures app { IfOk result (λ c. app_of c ≡ run_app) }
{
    let arguments = [Word("zero"), Word("one"), Needed("threshold")];
    let command = with_arguments(alloc, plain_command(alloc, "run"), arguments.as_slice())?;
    with_walk_options(alloc, command)
}

/// `find --width N --threshold N [--master SEED] [--tag N] STRINGS` with the options of a walk. `AllocError` is want of memory.
pub(crate) fn find_command<'a>(alloc: Global) -> Result<Command<'a>, AllocError>
    ensures app { IfOk result (λ c. app_of c ≡ find_app) }
{
    let arguments = [
        Word("strings"),
        Needed("width"),
        Needed("threshold"),
        Free("master"),
        Free("tag"),
    ];
    let command = with_arguments(alloc, plain_command(alloc, "find"), arguments.as_slice())?;
    with_walk_options(alloc, command)
}

/// `make --reports N --width N --threshold N [--master SEED]` with the options of a walk. `AllocError` is want of memory.
pub(crate) fn make_command<'a>(alloc: Global) -> Result<Command<'a>, AllocError>
    ensures app { IfOk result (λ c. app_of c ≡ make_app) }
{
    let arguments = [
        Needed("reports"),
        Needed("width"),
        Needed("threshold"),
        Free("master"),
    ];
    let command = with_arguments(alloc, plain_command(alloc, "make"), arguments.as_slice())?;
    with_walk_options(alloc, command)
}
