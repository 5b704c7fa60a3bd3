//! A step from a node of a list to one of its children.

use std::marker::Model;

/// A child to be made: that of the node at a place of a list, along a bit.
#[derive(Clone, Copy, Debug, PartialEq, Eq)]
pub struct Step {
    /// The parent's place in the list of nodes, counted from 0.
    pub from: usize,
    /// The bit that leads to the child.
    pub bit: bool,
}

impl Model for Step {
    ghost use Rattle.node_growth.specs.Steps.{Step as Planned};

    ghost Value = { Planned };

    ghost view = { λ s. record { from = s.from; bit = s.bit } };

    ghost inverse = { λ s. record { from = s.from; bit = s.bit } };
}
