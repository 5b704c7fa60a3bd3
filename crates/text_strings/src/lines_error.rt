//! Why the lines of a file are refused.
//! The numbers are those of the project's own error lines.

ghost use Rattle.std.specs.Prelude.{◌≡◌};

use std::alloc::AllocError;

/// Why a file of lines gives no strings.
#[derive(Clone, Copy, Debug, PartialEq, Eq)]
pub enum LinesError {
    /// There are this many lines: the file of their shares would be too long.
    TooMany { lines: u32 },
    /// The line of this number, counted from 0, has more bytes than the width. No line before it is at fault.
    LineLong { line: u32 },
    /// The line of this number, counted from 0, is not too long and holds a zero byte. No line before it is at fault.
    ZeroByte { line: u32 },
    /// The lines are good, and there was no memory for the strings.
    Memory,
}

impl From<AllocError> for LinesError {
    ghost use Rattle.text_strings.specs.declared.lines_error.LinesError.TheVariants.{Memory};

    ghost from_gives = { λ _ e. e ≡ Memory };

    fn from(_error: AllocError) -> LinesError {
        LinesError::Memory
    }
}
