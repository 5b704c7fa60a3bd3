//! Entries of a phase's log, and the answer to a post.
//! An entry is seen as the definitions' record of its name.

use std::marker::Model;

/// A posted tile, and the number under which it was posted.
#[derive(Clone, Copy, Debug, PartialEq, Eq)]
pub struct Posting {
    /// Who posted it: a worker, or, as the number of workers, the sweep.
    pub number: u32,
    /// The tile.
    pub tile: u32,
}

impl Model for Posting {
    ghost use Rattle.core_definitions.specs.Phase.{Posting as Entry};

    ghost Value = { Entry };

    ghost view = { λ p. record { number = p.number; tile = p.tile } };

    ghost inverse = { λ p. record { number = p.number; tile = p.tile } };
}

/// What a post did.
#[derive(Clone, Copy, Debug, PartialEq, Eq)]
pub enum Posted {
    /// The tile's part was added.
    Added,
    /// The tile was posted already, and nothing changed.
    Repeat,
}
