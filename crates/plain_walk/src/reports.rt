//! What a walk is given: the reports of a batch, and its settings.
//! Both are seen as the records of their names in `walk_definitions`.

ghost use Rattle.std.specs.Prelude.{◌≡◌};
ghost use Rattle.walk_definitions.specs.Reports.{held};

use definitions::Side;
use idpf_eval::Share;
use prefix_bits::ReportId;
use seed_expand::Seed;
use std::marker::Model;

/// A report that both sides hold: its id and its two shares.
#[derive(Debug, Drop)]
pub struct Report {
    /// The id, by which the check's coins are drawn.
    pub id: ReportId,
    /// The share of side 0.
    pub held0: Share,
    /// The share of side 1.
    pub held1: Share,
}

impl Model for Report {
    ghost use Rattle.walk_definitions.specs.Reports.{Report as Both};

    ghost Value = { Both };

    ghost view = { λ r. record { id = r.id; held0 = r.held0; held1 = r.held1 } };
}

impl Report {
    /// A side's share.
    pub fn held(&self, side: Side) -> &Share
        ensures value { result.now ≡ held self.now side }
    {
        match side {
            Side::Zero => &self.held0,
            Side::One => &self.held1,
        }
    }
}

/// What a walk is told.
#[derive(Clone, Copy, Debug, PartialEq, Eq)]
pub struct Settings {
    /// The strings' number of bits.
    pub bits: u16,
    /// The least total of a survivor.
    pub threshold: u64,
    /// The most candidates of a level.
    pub cap: u32,
    /// The seed of the check's coins.
    pub verify: Seed,
}

impl Model for Settings {
    ghost use Rattle.walk_definitions.specs.Walk.{Settings as Rules};

    ghost Value = { Rules };

    ghost view = { λ s. record { bits = s.bits; threshold = s.threshold; cap = s.cap; verify = s.verify } };

    ghost inverse = { λ s. record { bits = s.bits; threshold = s.threshold; cap = s.cap; verify = s.verify } };
}
