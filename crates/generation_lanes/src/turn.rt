//! What one more level gives a line's pair.

use idpf_eval::LevelWord;
use idpf_gen::Path;
use std::marker::Model;

/// Both sides' words of a level, and the path after the string's bit.
#[derive(Clone, Copy, Debug, PartialEq, Eq)]
pub(crate) struct Turn {
    /// Side 0's word.
    pub(crate) zero: LevelWord,
    /// Side 1's word.
    pub(crate) one: LevelWord,
    /// Both sides' seeds and bits after the level.
    pub(crate) path: Path,
}

impl Model for Turn {
    ghost use Rattle.generation_lanes.specs.Growing.{Turn as Made};

    ghost Value = { Made };

    ghost view = { λ t. record { zero = t.zero; one = t.one; path = t.path } };

    ghost inverse = { λ t. record { zero = t.zero; one = t.one; path = t.path } };
}
