//! A prefix with its total.
//! It is seen as the record of its name in `walk_definitions`.

use field64::Fe;
use prefix_bits::Prefix;
use std::marker::Model;

/// A candidate that survived its level, with its total.
#[derive(Clone, Copy, Debug, PartialEq, Eq)]
pub struct Heavy {
    /// The candidate, of as many bits as the level's number.
    pub prefix: Prefix,
    /// Its total, as an element of the field.
    pub count: Fe,
}

impl Model for Heavy {
    ghost use Rattle.walk_definitions.specs.Walk.{Heavy as Counted};

    ghost Value = { Counted };

    ghost view = { λ h. record { prefix = h.prefix; count = h.count } };

    ghost inverse = { λ h. record { prefix = h.prefix; count = h.count } };
}
