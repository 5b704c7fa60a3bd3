//! A walk of made shares in some way, and what is compared of its answer.
//! The conditions of the walk are tried first.

ghost use Rattle.std.specs.Prelude.{◌≡◌, ◌≤◌, ℕ, true};
ghost use Rattle.prefix_bits.specs.declared.TheConstants.{MOST_BITS};
ghost use Rattle.pair_run.specs.Plans.{HasFewTiles};
ghost use Rattle.pair_run.specs.Ranges.{AreInRange};
ghost use Rattle.walk_tests.specs.Ways.{IsSound};

use crate::pairs::{Pairs, are_whole};
use pair_run::{Answer, PairError, WalkSettings, run_pair};
use seed_expand::Seed;
use shelf_io::{Gate, Link};
use std::alloc::Global;
use std::sync::Wait;
use std::thread::Threads;

/// How a walk's work is divided.
#[derive(Clone, Copy, Debug, PartialEq, Eq)]
pub struct Way {
    pub workers: u32,
    pub uploaders: u32,
    pub drill: u32,
    /// The most nodes of a shard of a side's cache.
    pub cache: u32,
    pub by_reports: u32,
    pub by_candidates: u32,
}

/// The program's way: 4 workers, 4 uploaders, no drill, caches of 4,096 nodes a shard, tiles of 64 reports by 64 candidates.
pub const PLAIN: Way = Way {
    workers: 4,
    uploaders: 4,
    drill: 0,
    cache: 4096,
    by_reports: 64,
    by_candidates: 64,
};

/// The most candidates of a level.
const CAP: u32 = 64;

impl Way {
    /// Whether the numbers are in their ranges.
    fn is_sound(&self) -> bool
        ensures { result ≡ true → IsSound self.now }
    {
        if self.workers < 1 || self.workers > 64 {
            return false;
        }
        if self.uploaders < 1 || self.uploaders > 64 {
            return false;
        }
        if self.cache < 1 || self.cache > 65536 {
            return false;
        }
        self.by_reports >= 1 && self.by_candidates >= 1
    }
}

/// The settings of a walk of strings of two bytes at a threshold.
fn settings_of(threshold: u32, way: &Way) -> WalkSettings
    requires threshold { 1 ≤ threshold }
    requires way { IsSound way.now }
    ensures range { AreInRange MOST_BITS result }
    ensures bits { result.bits ≡ 16 }
    ensures tiles { (reports : ℕ) → reports ≤ 1000 → HasFewTiles result reports }
{
    WalkSettings {
        bits: 16,
        threshold: u64::from(threshold),
        cap: CAP,
        workers: way.workers,
        cache: way.cache,
        verify: Seed([0; 32]),
        drill: way.drill,
        by_reports: way.by_reports,
        by_candidates: way.by_candidates,
    }
}

/// What the pairs' walk over a link comes to, at a threshold of at least 1: None where a share has not 16 levels, or what is
/// given is not in its range.
pub fn walked<R: Threads + Wait + Sync, K: Link, G: Gate>(
    rt: &R,
    alloc: Global,
    pairs: Pairs,
    threshold: u32,
    way: &Way,
    link: &mut K,
    gate: &G,
) -> Option<Result<Answer, PairError>> {
    let Pairs { zero, one } = pairs;
    if !(are_whole(&zero) && are_whole(&one)) || zero.len() > 1000 || one.len() > 1000 {
        return None;
    }
    if threshold == 0 || !way.is_sound() {
        return None;
    }
    let settings = settings_of(threshold, way);
    Some(run_pair(rt, alloc, zero, one, way.uploaders, &settings, link, gate))
}

/// What is compared of an answer.
#[derive(Clone, Copy, Debug, PartialEq, Eq)]
pub struct Outline {
    /// The numbers of reports that were sealed and that passed.
    pub reports: (u32, u32),
    pub levels: u16,
    /// How many strings were found.
    pub found: usize,
    /// The first one's count, and 0 where none was found.
    pub first: u64,
}

/// The outline of an answer, where there is one.
pub fn outline_of(walked: &Option<Result<Answer, PairError>>) -> Option<Outline> {
    let Some(Ok(answer)) = walked else {
        return None;
    };
    let first = match answer.heavy.as_slice() {
        [first, ..] => first.count.number(),
        [] => 0,
    };
    Some(Outline {
        reports: (answer.sealed, answer.passed),
        levels: answer.levels,
        found: answer.heavy.len(),
        first,
    })
}
