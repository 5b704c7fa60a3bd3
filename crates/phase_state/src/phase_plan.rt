//! What a phase is over: a side's shares, which of them are live, the candidates, and how both are cut into tiles.
//! Contracts see the plan as plain lists.

ghost use Rattle.std.specs.Prelude.{◌≡◌, ◌<◌};
ghost use Rattle.tile_claims.specs.Plans.{tile_of, tiles_of, IsPartOf};

use crate::kind::Kind;
use idpf_eval::Share;
use prefix_bits::{Prefix, Side};
use seed_expand::Seed;
use std::collections::LinkedList;
use std::marker::Model;
use tile_claims::{Tile, TilePlan};

/// The plan of a phase. Places of reports in a tile are places in `live`, and places of candidates are those of the whole
/// list of candidates.
#[derive(Drop)]
pub struct PhasePlan<'a> {
    /// The side whose shares these are.
    pub side: Side,
    /// What is added up.
    pub kind: Kind,
    /// The level, counted from 1: the number of bits of each candidate.
    pub level: u16,
    /// The seed of the check's coins.
    pub verify: Seed,
    /// The side's shares, one of each report.
    pub shares: &'a [Share],
    /// The live reports, as places in `shares`.
    pub live: &'a [u32],
    /// The candidates.
    pub candidates: &'a [Prefix],
    /// How live reports and candidates are cut into tiles.
    pub tiles: TilePlan,
}

impl<'a> Model for PhasePlan<'a> {
    ghost use Rattle.phase_state.specs.declared.phase_plan.PlanSeen.{PlanSeen};

    ghost Value = { PlanSeen };

    ghost view = { λ p. record {
      side = p.side;
      kind = p.kind;
      level = p.level;
      verify = p.verify;
      shares = p.shares.now;
      live = p.live.now;
      candidates = p.candidates.now;
      tiles = p.tiles;
    } };
}

impl<'a> PhasePlan<'a> {
    /// The number of tiles.
    pub fn count(&self) -> u32
        ensures { result ≡ tiles_of self.now.tiles }
    {
        self.tiles.tiles()
    }

    /// The tile of that number.
    pub fn tile(&self, number: u32) -> Tile
        requires { number < tiles_of self.now.tiles }
        ensures exact { result ≡ tile_of self.now.tiles number }
        ensures part { IsPartOf self.now.tiles.reports self.now.tiles.candidates result }
    {
        self.tiles.tile(number)
    }

    /// The same plan.
    pub fn copy(&self) -> PhasePlan<'a>
        ensures { result ≡ self.now }
    {
        PhasePlan {
            side: self.side,
            kind: self.kind,
            level: self.level,
            verify: self.verify,
            shares: self.shares,
            live: self.live,
            candidates: self.candidates,
            tiles: self.tiles,
        }
    }
}

/// A plan as contracts see it. No value of it is made.
pub struct PlanSeen {
    pub side: Side,
    pub kind: Kind,
    pub level: u16,
    pub verify: Seed,
    pub shares: LinkedList<Share>,
    pub live: LinkedList<u32>,
    pub candidates: LinkedList<Prefix>,
    pub tiles: TilePlan,
}
