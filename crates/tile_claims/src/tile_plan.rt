//! A plan of tiles: every pair of a report and a candidate is in exactly one numbered tile.
//! It is four numbers and some arithmetic, and takes no memory.
ghost use Rattle.std.specs.Prelude.{◌≡◌, ℕ, ◌*◌, ◌<◌, ◌≤◌, ◌^◌, ◌+◌, ◌⊎◌, min};
ghost use Rattle.tile_claims.specs.Plans.{plan_of, blocks_of, tiles_of, tile_of, block_of, CoversEachPairOnce, IsPartOf};

use crate::tiles::Tile;
use std::marker::Model;

/// How the pairs of `reports` reports and `candidates` candidates are cut into tiles,
/// each of at most `by_reports` reports by `by_candidates` candidates. Contracts see the four numbers.
#[derive(Clone, Copy, Debug, PartialEq, Eq)]
pub struct TilePlan {
    reports: u32,
    candidates: u32,
    by_reports: u32,
    by_candidates: u32,
}

impl Model for TilePlan {
    ghost use Rattle.tile_claims.specs.Plans.{Plan, plan_of, IsPlan};

    ghost Value = { Plan };

    ghost view = { λ a. plan_of a.reports a.candidates a.by_reports a.by_candidates };

    ghost invariant = { λ a. IsPlan (plan_of a.reports a.candidates a.by_reports a.by_candidates) };

    ghost inverse = { λ p. record {
      reports = p.reports;
      candidates = p.candidates;
      by_reports = p.by_reports;
      by_candidates = p.by_candidates;
    } };
}

impl TilePlan {
    /// The plan of `reports` reports by `candidates` candidates, in tiles of at most `by_reports` by
    /// `by_candidates`. It is to have fewer than 2^31 tiles. Without reports or without candidates it has no tile.
    pub fn new(reports: u32, candidates: u32, by_reports: u32, by_candidates: u32) -> TilePlan
        requires sizes { (0 < by_reports) × (0 < by_candidates) }
        requires few { tiles_of (plan_of reports candidates by_reports by_candidates) < 2 ^ 31 }
        ensures { result ≡ plan_of reports candidates by_reports by_candidates }
    {
        TilePlan {
            reports,
            candidates,
            by_reports,
            by_candidates,
        }
    }

    /// The number of candidate blocks: the candidates divided by those of a tile, rounded up.
    pub fn blocks(&self) -> u32
        ensures { result ≡ blocks_of self.now }
    {
        self.candidates.div_ceil(self.by_candidates)
    }

    /// The number of tiles, fewer than 2^31; none without reports or without candidates.
    /// The tiles cover each pair of a report and a candidate exactly once.
    pub fn tiles(&self) -> u32
        ensures count { result ≡ tiles_of self.now }
        ensures few { result < 2 ^ 31 }
        ensures empty { (self.now.reports ≡ 0) ⊎ (self.now.candidates ≡ 0) → result ≡ 0 }
        ensures cover { CoversEachPairOnce self.now.reports self.now.candidates
            (tiles_of self.now) (tile_of self.now) }
    {
        self.reports.div_ceil(self.by_reports) * self.blocks()
    }

    /// Tile `k`, counted from 0. It has at least one report and one candidate, and none past the end.
    /// It is of the candidate block `k` modulo the number of blocks: those blocks run faster.
    pub fn tile(&self, k: u32) -> Tile
        requires { k < tiles_of self.now }
        ensures exact { result ≡ tile_of self.now k }
        ensures part { IsPartOf self.now.reports self.now.candidates result }
        ensures block { result.c0 ≡ block_of self.now k * self.now.by_candidates }
    {
        let blocks = self.blocks();
        let (r0, r1) = part(k / blocks, self.by_reports, self.reports);
        let (c0, c1) = part(k % blocks, self.by_candidates, self.candidates);
        Tile { r0, r1, c0, c1 }
    }
}

/// Where a block begins and ends.
fn part(block: u32, by: u32, all: u32) -> (u32, u32)
    requires begins { block * by < all }
    requires some { 0 < by }
    ensures ends { result ≡ (block * by, min (block * by + by) all) }
    ensures within { (result.0 < result.1) × (result.1 ≤ all) }
{
    let start = block * by;
    (start, start + by.min(all - start))
}
