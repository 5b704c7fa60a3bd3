//! Why there is no text to write.
//! A refusal is that of the words, files and messages; the others are faults met on the way.

ghost use Rattle.std.specs.Prelude.{◌≡◌};
ghost use Rattle.poplar_top.specs.Stops.{file_stop, eval_stop, gen_stop};

use crate::refusal::Refusal;
use file_eval::EvalError;
use file_gen::GenError;
use prefix_bits::Side;
use share_format::FileError;
use text_strings::LinesError;

/// Why a command has no text.
#[derive(Clone, Copy, Debug, PartialEq, Eq)]
pub(crate) enum Stop {
    /// The words and files, or the walk over them, come to a refusal.
    Refusal(Refusal),
    /// A call of the shelf failed.
    Shelf,
    /// A call of the link failed.
    Link,
    /// Memory was wanting.
    Memory,
}

/// Why a side's file that is not read whole gives no text.
pub(crate) fn stop_of_file(error: FileError, side: Side) -> Stop
    ensures value { result ≡ file_stop side error }
{
    match error {
        FileError::Missing => Stop::Refusal(Refusal::Missing { side }),
        FileError::TooLong { .. } => Stop::Refusal(Refusal::TooLong { side }),
        FileError::Header { at } => Stop::Refusal(Refusal::Header { side, at }),
        FileError::Cut { at } => Stop::Refusal(Refusal::Cut { side, at }),
        FileError::Shelf => Stop::Shelf,
        FileError::Memory => Stop::Memory,
    }
}

/// Why a side's file has no values at a prefix.
pub(crate) fn stop_of_eval(error: EvalError, side: Side) -> Stop
    ensures value { result ≡ eval_stop side error }
{
    match error {
        EvalError::File(error) => stop_of_file(error, side),
        EvalError::LongPrefix { bits, width } => {
            Stop::Refusal(Refusal::LongPrefix { bits, width })
        }
        EvalError::Memory => Stop::Memory,
    }
}

// Why a strings file whose lines give no strings gives none.
fn stop_of_lines(error: LinesError) -> Stop
    ensures value { result ≡ gen_stop (GenError.Lines error) }
{
    match error {
        LinesError::TooMany { lines } => Stop::Refusal(Refusal::TooMany { lines }),
        LinesError::LineLong { line } => Stop::Refusal(Refusal::LineLong { line }),
        LinesError::ZeroByte { line } => Stop::Refusal(Refusal::ZeroByte { line }),
        LinesError::Memory => Stop::Memory,
    }
}

/// Why the files of `gen` are not made.
pub(crate) fn stop_of_gen(error: GenError) -> Stop
    ensures value { result ≡ gen_stop error }
{
    match error {
        GenError::Missing => Stop::Refusal(Refusal::NoStrings),
        GenError::TooLong => Stop::Refusal(Refusal::StringsLong),
        GenError::Lines(error) => stop_of_lines(error),
        GenError::Shelf => Stop::Shelf,
        GenError::Memory => Stop::Memory,
    }
}
