//! The state of a phase: which tiles were posted, by whom, and the sums of them.
//! However often a tile is posted, it is added once.

ghost use Rattle.std.specs.Prelude.{◌≡◌, ◌↔◌, ◌<◌, [], ◌++◌, IsTrue, IfOk, false, replicate};
ghost use Rattle.tile_claims.specs.Plans.{tiles_of};
ghost use Rattle.phase_state.specs.Sums.{IsPhasePlan, sums_of, totals_of, plain_sums, plain_totals};
ghost use Rattle.phase_state.specs.declared.kind.Kind.TheVariants.{Sketch, Totals};
ghost use Rattle.phase_state.specs.Logs.{tiles_in, posts, IsPosted, AreApart, EachAtMostOnce, EachOnce};
ghost use Rattle.phase_state.specs.Phases.{IsPart};

use crate::adding::{add_part, add_sums};
use crate::marking::mark_all;
use crate::part::Part;
use crate::phase_plan::PhasePlan;
use crate::posting::{Posted, Posting};
use field64::Fe;
use lane_sums::add_into;
use sketch_check::Sums;
use std::alloc::{AllocError, Global};
use std::marker::Model;

/// The state of a phase. Contracts see its plan, and the log of the tiles that were posted, the oldest first.
#[derive(Drop)]
pub struct PhaseState<'a> {
    plan: PhasePlan<'a>,
    log: Vec<Posting>,
    marks: Vec<bool>,
    sums: Vec<Sums>,
    totals: Vec<Fe>,
}

impl<'a> Model for PhaseState<'a> {
    ghost use Rattle.std.specs.Prelude.{vec_capacity};
    ghost use Rattle.phase_state.specs.Phases.{StateSeen, IsPhase};

    ghost Value = { StateSeen };

    ghost view = { λ s. record { plan = s.plan; log = s.log.items } };

    ghost invariant = { λ s. IsPhase s.plan s.log.items (vec_capacity s.log) s.marks.items s.sums.items s.totals.items };
}

impl<'a> PhaseState<'a> {
    /// The state of a phase of which nothing is posted: all sums are 0. It takes the room that the posts need, 8 bytes a tile
    /// for the log, and a mark a tile. `AllocError` is want of memory.
    pub fn new(alloc: Global, plan: PhasePlan<'a>) -> Result<PhaseState<'a>, AllocError>
        requires { IsPhasePlan plan }
        ensures { IfOk result (λ state. state ≡ record { plan = plan.entry; log = [] }) }
    {
        let tiles = plan.tiles.tiles() as usize;
        Ok(PhaseState {
            log: Vec::with_capacity(alloc, tiles)?,
            marks: vec![in alloc; false; tiles]?,
            sums: vec![in alloc; Sums::zero(); plan.live.len()]?,
            totals: vec![in alloc; Fe::zero(); plan.candidates.len()]?,
            plan,
        })
    }

    /// Posts a tile under a number, with the tile's part. `Added`: the log did not have the tile, its entry is now at the
    /// end, and the part is added. `Repeat`: the log has the tile, and nothing changes. It takes no memory, in the time of
    /// the part.
    pub fn post(&mut self, number: u32, tile: u32, part: &Part<'_>) -> Posted
        requires tile { tile < tiles_of self.old.plan.tiles }
        requires part { IsPart self.old.plan tile part.now }
        ensures plan { self.new.plan ≡ self.old.plan }
        ensures log { IsPosted result number tile self.old.log self.new.log }
    {
        if self.marks[tile as usize] {
            return Posted::Repeat;
        }
        let place = self.plan.tile(tile);
        add_part(
            self.sums.as_mut_slice(),
            self.totals.as_mut_slice(),
            &place,
            part,
        );
        self.marks[tile as usize] = true;
        self.log.push_reserved(Posting { number, tile });
        Posted::Added
    }

    /// Joins another state of the same plan, of whose tiles none is posted here: its entries follow those of this log, and its
    /// sums are added. It takes no memory, in the time of the plan's sums.
    pub fn join(&mut self, other: PhaseState<'a>)
        requires plan { other.plan ≡ self.old.plan }
        requires apart { AreApart self.old.log other.log }
        ensures plan { self.new.plan ≡ self.old.plan }
        ensures log { self.new.log ≡ self.old.log ++ other.entry.log }
    {
        let PhaseState {
            plan: _,
            log,
            marks,
            sums,
            totals,
        } = other;
        add_sums(self.sums.as_mut_slice(), sums.as_slice());
        add_into(self.totals.as_mut_slice(), totals.as_slice());
        mark_all(self.marks.as_mut_slice(), marks.as_slice());
        let Ok(()) = self.log.extend_from_slice(log.as_slice()) else {
            unreachable!()
        };
    }

    /// Whether the tile is posted.
    pub fn posted(&self, tile: u32) -> bool
        requires { tile < tiles_of self.now.plan.tiles }
        ensures { IsTrue result ↔ (posts tile self.now.log ≡ 1) }
    {
        self.marks[tile as usize]
    }

    /// Whether each tile is posted.
    pub fn all_posted(&self) -> bool
        ensures all { IsTrue result ↔ EachOnce (tiles_of self.now.plan.tiles) self.now.log }
        ensures once { EachAtMostOnce (tiles_of self.now.plan.tiles) self.now.log }
    {
        self.log.len() == self.marks.len()
    }

    /// The sums of the posted tiles, one for each live report. In a phase of totals all are 0. Where each tile of a phase of
    /// sketches is posted, they are the plain sums over all candidates.
    pub fn sums(&self) -> &[Sums]
        ensures sums { result.now ≡ sums_of self.now.plan (tiles_in self.now.log) }
        ensures plain { EachOnce (tiles_of self.now.plan.tiles) self.now.log → self.now.plan.kind ≡ Sketch
            → result.now ≡ plain_sums self.now.plan }
    {
        self.sums.as_slice()
    }

    /// The totals of the posted tiles, one for each candidate. In a phase of sketches all are 0. Where each tile of a phase
    /// of totals is posted, they are the plain totals over all live reports.
    pub fn totals(&self) -> &[Fe]
        ensures totals { result.now ≡ totals_of self.now.plan (tiles_in self.now.log) }
        ensures plain { EachOnce (tiles_of self.now.plan.tiles) self.now.log → self.now.plan.kind ≡ Totals
            → result.now ≡ plain_totals self.now.plan }
    {
        self.totals.as_slice()
    }
}
