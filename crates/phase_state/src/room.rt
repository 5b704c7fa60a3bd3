//! Room for the part of any tile of a plan, made once for whoever posts many.
//! A part is made here from the shares, and shown to the post.

ghost use Rattle.std.specs.Prelude.{◌≡◌, ◌<◌, ◌≤◌, ◌-◌, IfOk, vec_len, vec_capacity};
ghost use Rattle.tile_claims.specs.Plans.{tile_of, tiles_of};
ghost use Rattle.phase_state.specs.Sums.{IsPhasePlan};
ghost use Rattle.phase_state.specs.Rooms.{HasRoom, Holds, Shows};

use crate::filling::{fill_sums, fill_totals};
use crate::kind::Kind;
use crate::part::Part;
use crate::phase_plan::PhasePlan;
use field64::Fe;
use sketch_check::Sums;
use std::alloc::{AllocError, Global};
use std::marker::Model;
use tile_claims::{Tile, TilePlan};

/// Room for the part of any tile of a plan. Contracts see for how many reports and candidates it is, and what was made last.
#[derive(Drop)]
pub struct PartRoom {
    sums: Vec<Sums>,
    totals: Vec<Fe>,
    coins: Vec<Fe>,
}

impl Model for PartRoom {
    ghost use Rattle.std.specs.Prelude.{◌≤◌, vec_len, vec_capacity};
    ghost use Rattle.phase_state.specs.Rooms.{RoomSeen};

    ghost Value = { RoomSeen };

    ghost view = { λ r. record {
      reports = vec_capacity r.sums;
      candidates = vec_len r.coins;
      sums = r.sums.items;
      totals = r.totals.items;
    } };

    ghost invariant = { λ r. vec_len r.coins ≤ vec_capacity r.totals };
}

/// The tile that is at least as wide as any other, each way: the first. Without tiles it is empty.
fn widest(plan: &TilePlan) -> Tile
    ensures widest { HasRoom plan.now (result.r1 - result.r0) (result.c1 - result.c0) }
    ensures rising { (result.r0 ≤ result.r1) × (result.c0 ≤ result.c1) }
{
    if plan.tiles() > 0 {
        return plan.tile(0);
    }
    Tile {
        r0: 0,
        r1: 0,
        c0: 0,
        c1: 0,
    }
}

impl PartRoom {
    /// Room for each tile of the plan: as much as its widest tile wants. `AllocError` is want of memory.
    pub fn new(alloc: Global, plan: &TilePlan) -> Result<PartRoom, AllocError>
        ensures { IfOk result (λ room. HasRoom plan.now room.reports room.candidates) }
    {
        let Tile { r0, r1, c0, c1 } = widest(plan);
        let width = (c1 - c0) as usize;
        Ok(PartRoom {
            sums: Vec::with_capacity(alloc, (r1 - r0) as usize)?,
            totals: Vec::with_capacity(alloc, width)?,
            coins: vec![in alloc; Fe::zero(); width]?,
        })
    }

    /// Makes the part of a tile: each live report of the tile is evaluated at each candidate of the tile, and the coins are
    /// those of the candidates' places in the whole list. It takes no memory.
    pub fn fill(&mut self, plan: &PhasePlan<'_>, tile: u32)
        requires plan { IsPhasePlan plan.now }
        requires tile { tile < tiles_of plan.now.tiles }
        requires room { HasRoom plan.now.tiles self.old.reports self.old.candidates }
        ensures room { (self.new.reports ≡ self.old.reports) × (self.new.candidates ≡ self.old.candidates) }
        ensures part { Holds plan.now tile self.new }
    {
        let Tile { r0, r1, c0, c1 } = plan.tile(tile);
        let live = &plan.live[r0 as usize..r1 as usize];
        let candidates = &plan.candidates[c0 as usize..c1 as usize];
        match plan.kind {
            Kind::Sketch => {
                let coins = self.coins.as_mut_slice();
                fill_sums(plan, live, c0, candidates, coins, &mut self.sums)
            }
            Kind::Totals => fill_totals(plan, live, candidates, &mut self.totals),
        }
    }

    /// What was made last, for a plan of that kind.
    pub fn part(&self, kind: Kind) -> Part<'_>
        ensures { Shows kind self.now result }
    {
        match kind {
            Kind::Sketch => Part::Sketch(self.sums.as_slice()),
            Kind::Totals => Part::Totals(self.totals.as_slice()),
        }
    }
}
