//! What a run is told beside its files.
//! The width of the strings comes from the files.

ghost use Rattle.std.specs.Prelude.{◌≡◌, ◌*◌, ◌≤◌, ◌^◌, ℕ};
ghost use Rattle.prefix_bits.specs.declared.TheConstants.{MOST_BITS};
ghost use Rattle.pair_run.specs.Plans.{HasFewTiles};
ghost use Rattle.pair_run.specs.Ranges.{AreInRange};
ghost use Rattle.pair_run.specs.Rules.{rules_of};
ghost use Rattle.file_run.specs.Beginnings.{settings_for};
ghost use Rattle.file_run.specs.Ranges.{IsInRange};

use pair_run::WalkSettings;
use seed_expand::Seed;

/// What a run is told beside its files.
#[derive(Clone, Copy, Debug, PartialEq, Eq)]
pub struct RunRules {
    /// The least number of reports that makes a string frequent: 1 to the field's modulus less 1.
    pub threshold: u64,
    /// How many work at each side's phases at once: 1 to 64.
    pub workers: u32,
    /// How many upload each side's reports at once: 1 to 64.
    pub uploaders: u32,
    /// The most candidates of a level: 2 to 65536.
    pub cap: u32,
    /// The most nodes of one shard of a side's cache: 1 to 65536.
    pub cache: u32,
    /// The seed of the check's coins.
    pub verify: Seed,
    /// Which tiles the workers leave to the sweep: each whose number, counted from 1, is a multiple of this; none where it is 0.
    pub drill: u32,
}

/// The reports of a tile.
const BY_REPORTS: u32 = 64;

/// The candidates of a tile.
const BY_CANDIDATES: u32 = 64;

/// The settings of the walk over strings of a width in bytes, in tiles of 64 reports by 64 candidates. So many reports as a
/// file can hold are few enough for these.
pub(crate) fn walk_settings(rules: &RunRules, width: u8) -> WalkSettings
    requires rules { IsInRange rules.now }
    requires width { (1 ≤ width) × (width ≤ 32) }
    ensures bits { result.bits ≡ 8 * width }
    ensures range { AreInRange MOST_BITS result }
    ensures rules { rules_of result ≡ settings_for rules.now width }
    ensures work { (result.workers ≡ rules.now.workers) × (result.cache ≡ rules.now.cache) × (result.drill ≡ rules.now.drill) }
    ensures tiles { (reports : ℕ) → reports ≤ 2 ^ 21 → HasFewTiles result reports }
{
    WalkSettings {
        bits: 8 * u16::from(width),
        threshold: rules.threshold,
        cap: rules.cap,
        workers: rules.workers,
        cache: rules.cache,
        verify: rules.verify,
        drill: rules.drill,
        by_reports: BY_REPORTS,
        by_candidates: BY_CANDIDATES,
    }
}
