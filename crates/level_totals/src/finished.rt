//! A level that is finished: its state, no longer shared.
//! The sweep posts to it, and the sums are read from it.

ghost use Rattle.std.specs.Prelude.{◌≡◌, ◌↔◌, ◌<◌, IsTrue};
ghost use Rattle.tile_claims.specs.Plans.{tiles_of};
ghost use Rattle.phase_state.specs.declared.kind.Kind.TheVariants.{Sketch, Totals};
ghost use Rattle.phase_state.specs.Sums.{sums_of, totals_of, plain_sums, plain_totals};
ghost use Rattle.phase_state.specs.Logs.{tiles_in, posts, IsPosted, EachAtMostOnce, EachOnce};
ghost use Rattle.phase_state.specs.Phases.{IsPart};

use field64::Fe;
use phase_state::{Part, PhaseState, Posted};
use sketch_check::Sums;
use std::marker::Model;

/// What a level leaves. Contracts see its plan, and the log of all that was posted.
#[derive(Drop)]
pub struct Finished<'a> {
    state: PhaseState<'a>,
}

impl<'a> Model for Finished<'a> {
    ghost use Rattle.phase_state.specs.Phases.{StateSeen};

    ghost Value = { StateSeen };

    ghost view = { λ finished. finished.state };
}

impl<'a> Finished<'a> {
    /// What a level leaves whose state is this.
    pub(crate) fn of(state: PhaseState<'a>) -> Finished<'a>
        ensures { result ≡ state.entry }
    {
        Finished { state }
    }

    /// Posts a tile under a number, with the tile's part, as [`PhaseState::post`] does.
    pub fn post(&mut self, number: u32, tile: u32, part: &Part<'_>) -> Posted
        requires tile { tile < tiles_of self.old.plan.tiles }
        requires part { IsPart self.old.plan tile part.now }
        ensures plan { self.new.plan ≡ self.old.plan }
        ensures log { IsPosted result number tile self.old.log self.new.log }
    {
        self.state.post(number, tile, part)
    }

    /// Whether the tile is posted.
    pub fn posted(&self, tile: u32) -> bool
        requires { tile < tiles_of self.now.plan.tiles }
        ensures { IsTrue result ↔ (posts tile self.now.log ≡ 1) }
    {
        self.state.posted(tile)
    }

    /// Whether each tile is posted.
    pub fn all_posted(&self) -> bool
        ensures all { IsTrue result ↔ EachOnce (tiles_of self.now.plan.tiles) self.now.log }
        ensures once { EachAtMostOnce (tiles_of self.now.plan.tiles) self.now.log }
    {
        self.state.all_posted()
    }

    /// The sums of the posted tiles, as [`PhaseState::sums`] gives them.
    pub fn sums(&self) -> &[Sums]
        ensures sums { result.now ≡ sums_of self.now.plan (tiles_in self.now.log) }
        ensures plain { EachOnce (tiles_of self.now.plan.tiles) self.now.log → self.now.plan.kind ≡ Sketch
            → result.now ≡ plain_sums self.now.plan }
    {
        self.state.sums()
    }

    /// The totals of the posted tiles, as [`PhaseState::totals`] gives them.
    pub fn totals(&self) -> &[Fe]
        ensures totals { result.now ≡ totals_of self.now.plan (tiles_in self.now.log) }
        ensures plain { EachOnce (tiles_of self.now.plan.tiles) self.now.log → self.now.plan.kind ≡ Totals
            → result.now ≡ plain_totals self.now.plan }
    {
        self.state.totals()
    }
}
