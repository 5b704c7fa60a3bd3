//! Seeds, and what expansion and conversion give.
//! Each type is seen as the definitions' list or record of its name.

use std::marker::Model;

/// A seed of 32 bytes, seen as the list of its bytes.
#[derive(Clone, Copy, Debug, PartialEq, Eq)]
pub struct Seed(pub [u8; 32]);

impl Model for Seed {
    ghost use Rattle.std.specs.Prelude.{List, ℕ};

    ghost Value = { List ℕ };

    ghost view = { λ s. s.0 };

    ghost inverse = { λ bytes. record { 0 = bytes } };
}

/// What a seed expands to: a seed and a bit for each child.
#[derive(Clone, Copy, Debug, PartialEq, Eq)]
pub struct Children {
    /// The left child's seed, before any correction.
    pub left: Seed,
    /// The right child's seed, before any correction.
    pub right: Seed,
    /// The left child's bit, before any correction.
    pub bit_left: bool,
    /// The right child's bit, before any correction.
    pub bit_right: bool,
}

impl Model for Children {
    ghost use Rattle.definitions.specs.Words.{Children as Expanded};

    ghost Value = { Expanded };

    ghost view = { λ c. record { left = c.left; right = c.right; bit_left = c.bit_left; bit_right = c.bit_right } };

    ghost inverse = { λ c. record { left = c.left; right = c.right; bit_left = c.bit_left; bit_right = c.bit_right } };
}

/// What a child's seed is converted to.
#[derive(Clone, Copy, Debug, PartialEq, Eq)]
pub struct Converted {
    /// The seed of the child's own node.
    pub next: Seed,
    /// The number from which the first element of the child's value is made.
    pub u: u128,
    /// The number from which the second element of the child's value is made.
    pub v: u128,
}

impl Model for Converted {
    ghost use Rattle.definitions.specs.Words.{Converted as Read};

    ghost Value = { Read };

    ghost view = { λ c. record { next = c.next; u = c.u; v = c.v } };

    ghost inverse = { λ c. record { next = c.next; u = c.u; v = c.v } };
}
