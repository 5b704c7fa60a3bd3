//! What the core is told: the walk's settings, the tiles' sizes, and how many upload and work.
//! It is seen as the record of its name in `core_definitions`.

use seed_expand::Seed;
use std::marker::Model;

/// The settings of a run.
#[derive(Clone, Copy, Debug, PartialEq, Eq)]
pub struct CoreSettings {
    /// The strings' number of bits, 8 to `MOST_BITS`.
    pub bits: u16,
    /// The least total of a survivor, at least 1.
    pub threshold: u64,
    /// The most candidates of a level, 2 to 65536.
    pub cap: u32,
    /// The seed of the check's coins.
    pub verify: Seed,
    /// The most reports of a tile, at least 1.
    pub by_reports: u32,
    /// The most candidates of a tile, at least 1.
    pub by_candidates: u32,
    /// How many upload to each side, at least 1. Their numbers are those below it.
    pub uploaders: u32,
    /// How many work on each side, at least 1. Their numbers are those below it, and the sweep posts under this number.
    pub workers: u32,
}

impl Model for CoreSettings {
    ghost use Rattle.core_definitions.specs.Phase.{CoreSettings as Rules};

    ghost Value = { Rules };

    ghost view = { λ s. record {
      walk = record { bits = s.bits; threshold = s.threshold; cap = s.cap; verify = s.verify };
      by_reports = s.by_reports;
      by_candidates = s.by_candidates;
      uploaders = s.uploaders;
      workers = s.workers;
    } };

    ghost inverse = { λ s. record {
      bits = s.walk.bits;
      threshold = s.walk.threshold;
      cap = s.walk.cap;
      verify = s.walk.verify;
      by_reports = s.by_reports;
      by_candidates = s.by_candidates;
      uploaders = s.uploaders;
      workers = s.workers;
    } };
}
