//! What a command's words are, and the crate's command for them.
//! The same as rules of the crate stands in specs/Commands.antt.

ghost use Rattle.std.specs.Prelude.{◌≡◌, false, fold, IfOk};
ghost use Rattle.clap.specs.Words.{app_of, rule_of};
ghost use Rattle.command_words.specs.Commands.{plain_app, rule_for, with_argument};

use clap::{Arg, Command};
use std::alloc::{AllocError, Global};

/// One argument of a command, with its name.
#[derive(Clone, Copy)]
pub(crate) enum Argument {
    /// A positional word, which has to be there.
    Word(&'static str),
    /// An option with one value, which has to be there.
    Needed(&'static str),
    /// An option with one value, which may be left out.
    Free(&'static str),
}

// The crate's argument.
fn crate_argument<'a>(alloc: Global, argument: Argument) -> Arg<'a>
    ensures rule { rule_of result ≡ rule_for argument }
    ensures own { result.global ≡ false }
{
    match argument {
        Argument::Word(name) => Arg::new(alloc, name).required(true),
        Argument::Needed(name) => Arg::new(alloc, name).long(name).required(true),
        Argument::Free(name) => Arg::new(alloc, name).long(name),
    }
}

/// A command of this name without arguments, which reads the words behind the name.
pub(crate) fn plain_command<'a>(alloc: Global, name: &'a str) -> Command<'a>
    ensures app { app_of result ≡ plain_app name.now }
{
    Command::new(alloc, name).no_binary_name(true)
}

/// The command with these arguments behind those that it has. `AllocError` is want of memory.
pub(crate) fn with_arguments<'a>(
    alloc: Global,
    command: Command<'a>,
    arguments: &[Argument],
) -> Result<Command<'a>, AllocError>
    ensures app { IfOk result (λ c. app_of c ≡ fold with_argument (app_of command.entry) arguments.now) }
{
    let mut command = command;
    for argument in arguments {
        command = command.arg(crate_argument(alloc, *argument))?;
    }
    Ok(command)
}
