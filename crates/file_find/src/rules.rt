//! What a search for the frequent strings is told beside the strings.
//! Width, threshold, cap and the seeds decide what is answered and sent; the others only how the work is divided.

ghost use Rattle.std.specs.Prelude.{◌≡◌, ◌*◌, ◌≤◌, ◌^◌, ℕ};
ghost use Rattle.prefix_bits.specs.declared.TheConstants.{MOST_BITS};
ghost use Rattle.pair_run.specs.Plans.{HasFewTiles};
ghost use Rattle.pair_run.specs.Ranges.{AreInRange};
ghost use Rattle.pair_run.specs.Rules.{rules_of};
ghost use Rattle.file_find.specs.Walks.{settings_for};
ghost use Rattle.file_find.specs.Ranges.{IsInRange};

use pair_files::PairSettings;
use pair_run::WalkSettings;
use seed_expand::Seed;

/// The reports of a tile.
const TILE_REPORTS: u32 = 64;

/// The candidates of a tile.
const TILE_CANDIDATES: u32 = 64;

/// What a search for the frequent strings is told beside the strings.
#[derive(Clone, Copy, Debug, PartialEq, Eq)]
pub struct FindRules {
    /// The bytes of a string: 1 to 32.
    pub width: u8,
    /// The least number of holders that makes a string frequent: 1 to the field's modulus less 1.
    pub threshold: u64,
    /// The seed that the coins of every line come from.
    pub master: Seed,
    /// The number in the first 8 bytes of every id.
    pub tag: u64,
    /// How many work on each side's phases at once: 1 to 64.
    pub workers: u32,
    /// How many upload each side's reports at once: 1 to 64.
    pub uploaders: u32,
    /// The most candidates of a level: 2 to 65536.
    pub cap: u32,
    /// The number of nodes that a shard of the cache keeps: 1 to 65536.
    pub cache: u32,
    /// The seed of the check's coins.
    pub verify: Seed,
    /// Which tiles workers leave to the sweep: each whose number, counted from 1, is a multiple of this; none where it is 0.
    pub drill: u32,
}

/// What the shares are made with.
pub(crate) fn pair_settings(rules: &FindRules) -> PairSettings
    ensures width { result.width ≡ rules.now.width }
    ensures master { result.master ≡ rules.now.master }
    ensures tag { result.tag ≡ rules.now.tag }
{
    PairSettings {
        width: rules.width,
        master: rules.master,
        tag: rules.tag,
    }
}

/// The settings of the walk, in tiles of 64 reports by 64 candidates. So many reports as a file can hold are few enough for these.
pub(crate) fn walk_settings(rules: &FindRules) -> WalkSettings
    requires rules { IsInRange rules.now }
    ensures bits { result.bits ≡ 8 * rules.now.width }
    ensures range { AreInRange MOST_BITS result }
    ensures rules { rules_of result ≡ settings_for rules.now }
    ensures work { (result.workers ≡ rules.now.workers) × (result.drill ≡ rules.now.drill) }
    ensures tiles { (reports : ℕ) → reports ≤ 2 ^ 21 → HasFewTiles result reports }
{
    WalkSettings {
        bits: 8 * u16::from(rules.width),
        threshold: rules.threshold,
        cap: rules.cap,
        workers: rules.workers,
        cache: rules.cache,
        verify: rules.verify,
        drill: rules.drill,
        by_reports: TILE_REPORTS,
        by_candidates: TILE_CANDIDATES,
    }
}
