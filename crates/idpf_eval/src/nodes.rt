//! A side's node: its state and its value at a prefix.
//! It is seen as the definitions' record of its name.

use field64::Fe;
use seed_expand::Seed;
use std::marker::Model;

/// A side's state and value at a prefix.
#[derive(Clone, Copy, Debug, PartialEq, Eq)]
pub struct Node {
    /// The seed, from which the children are made.
    pub seed: Seed,
    /// The bit: where it is 1 the children's seeds and bits are corrected.
    pub bit: bool,
    /// The first element of the value; on the string's prefixes both sides' add up to 1, elsewhere to 0.
    pub d: Fe,
    /// The second element of the value; on the string's prefixes both sides' add up to the level's data.
    pub e: Fe,
}

impl Model for Node {
    ghost use Rattle.definitions.specs.Evaluation.{Node as State};

    ghost Value = { State };

    ghost view = { λ n. record { seed = n.seed; bit = n.bit; d = n.d; e = n.e } };

    ghost inverse = { λ n. record { seed = n.seed; bit = n.bit; d = n.d; e = n.e } };
}
