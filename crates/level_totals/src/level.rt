//! The level: made with its passes, posted to in turns, and finished with all of its passes.
//! A post waits for its turn at its tile's stripe; nothing but the making takes memory.

ghost use Rattle.std.specs.Prelude.{◌≡◌, ℕ, ◌<◌, ◌≤◌, IfOk, vec_len};
ghost use Rattle.std.specs.List.{AllByRecursion};
ghost use Rattle.turn_lock.specs.Logs.{entries_of};
ghost use Rattle.turn_lock.specs.Places.{NumberedOnce};
ghost use Rattle.lock_row.specs.Rows.{locks_of, turn_locks, fresh_rows, Takes};
ghost use Rattle.tile_claims.specs.Plans.{tiles_of};
ghost use Rattle.core_definitions.specs.Phase.{Posting as Entry};
ghost use Rattle.phase_state.specs.Sums.{IsPhasePlan};
ghost use Rattle.phase_state.specs.Phases.{IsPart};
ghost use Rattle.level_totals.specs.Stripes.{stripes_of, stripe_of, plan_of};
ghost use Rattle.level_totals.specs.Levels.{number_of, numbers_of, IsNumbered, seen_of, own_of, SawPost, OwnsPost, SameElsewhere, Has, FromStripes};

use crate::finished::Finished;
use crate::held_phase::{HeldPhase, empty_stripes};
use crate::stripes::stripe_of;
use lock_row::{Row, RowPass, RowTurn};
use phase_state::{Part, PhasePlan, Posted};
use std::alloc::{AllocError, Global};
use std::marker::Model;
use std::sync::Wait;

/// The right to post to a level. Contracts see, for each stripe of the level, the pass's number, the log that it has seen
/// there, and its own entries there.
pub type LevelPass<'a> = RowPass<HeldPhase<'a>>;

/// The level of a plan, to be shared by `&`. It has a lock for each stripe: as many as the plan has candidate blocks, but at
/// least 1 and at most 4. Contracts see its plan, its locks, and how many passes it has.
#[derive(Drop)]
pub struct Level<'a> {
    plan: PhasePlan<'a>,
    row: Row<HeldPhase<'a>>,
}

impl<'a> Model for Level<'a> {
    ghost use Rattle.std.specs.Prelude.{◌≡◌};
    ghost use Rattle.lock_row.specs.Rows.{plans_of};
    ghost use Rattle.phase_state.specs.Sums.{IsPhasePlan};
    ghost use Rattle.level_totals.specs.Stripes.{stripe_plans};
    ghost use Rattle.level_totals.specs.Levels.{LevelSeen};

    ghost Value = { LevelSeen };

    ghost view = { λ level. record { plan = level.plan; locks = level.row.locks; passes = level.row.passes } };

    ghost invariant = { λ level. (plans_of level.row.locks ≡ stripe_plans level.plan) × IsPhasePlan level.plan };
}

impl<'a> Level<'a> {
    /// The level of a plan, of which nothing is posted, with 1 to 4096 passes. Pass k of the list, counted from 0, has the
    /// number k in each stripe and was never used. It takes the room for all posts, those of the sweep too: a state of the
    /// whole plan for each stripe. `AllocError` is want of memory; then nothing stands.
    pub fn new(
        alloc: Global,
        plan: PhasePlan<'a>,
        passes: u32,
    ) -> Result<(Level<'a>, Vec<LevelPass<'a>>), AllocError>
        requires count { (0 < passes) × (passes ≤ 4096) }
        requires plan { IsPhasePlan plan }
        ensures plan { IfOk result (λ made. made.0.plan ≡ plan.entry) }
        ensures count { IfOk result (λ made. made.0.passes ≡ passes) }
        ensures passes { IfOk result (λ made. made.1.items ≡ fresh_rows made.0.locks passes) }
        ensures mine { IfOk result (λ made. AllByRecursion (λ pass. locks_of pass ≡ made.0.locks) made.1.items) }
        ensures all { IfOk result (λ made. vec_len made.1 ≡ passes) }
    {
        let states = empty_stripes(alloc, &plan)?;
        let (row, made) = Row::new(alloc, states, passes)?;
        Ok((Level { plan, row }, made))
    }

    /// The level's plan.
    pub fn plan(&self) -> &PhasePlan<'a>
        ensures same { result.now ≡ self.now.plan }
        ensures fits { IsPhasePlan self.now.plan }
    {
        &self.plan
    }

    /// Posts a tile with its part, when it is the pass's turn at the tile's stripe. `Repeat`: the log of that stripe that the
    /// pass has seen now had the tile before this call, and nothing changes. `Added`: it did not; this call's entry ends that
    /// log and the pass's own entries of that stripe, and the part is added. What the pass knows of the other stripes stays.
    /// It takes no memory, and waits for other posts to the stripe alone.
    pub fn post<R: Wait>(
        &self,
        rt: &R,
        pass: LevelPass<'a>,
        tile: u32,
        part: &Part<'_>,
    ) -> (Posted, LevelPass<'a>)
        requires mine { locks_of pass ≡ self.now.locks }
        requires tile { tile < tiles_of self.now.plan.tiles }
        requires part { IsPart self.now.plan tile part.now }
        ensures mine { locks_of result.1 ≡ self.now.locks }
        ensures numbers { numbers_of result.1 ≡ numbers_of pass.entry }
        ensures seen { SawPost result.0 (stripe_of self.now.plan.tiles tile) tile pass.entry result.1 }
        ensures own { OwnsPost result.0 (stripe_of self.now.plan.tiles tile) tile pass.entry result.1 }
        ensures others { SameElsewhere (stripe_of self.now.plan.tiles tile) pass.entry result.1 }
    {
        let stripe = stripe_of(&self.plan.tiles, tile);
        let (mut held, turn) = self.take_stripe(rt, pass, stripe);
        let posted = held.post(turn.number(), tile, part);
        (posted, self.row.give(held, turn))
    }

    /// Waits for the turn at that stripe, and takes what its lock holds.
    fn take_stripe<R: Wait>(
        &self,
        rt: &R,
        pass: LevelPass<'a>,
        stripe: u32,
    ) -> (HeldPhase<'a>, RowTurn<HeldPhase<'a>>)
        requires mine { locks_of pass ≡ self.now.locks }
        requires stripe { stripe < stripes_of self.now.plan.tiles }
        ensures takes { Takes (λ (e : Entry). e.number) stripe pass.entry result.0.state.log result.1 }
        ensures plan { result.0.state.plan ≡ self.now.plan }
        ensures stripe { result.0.stripe ≡ stripe }
        ensures held { plan_of result.0 ≡ result.1.turn.lock.plan }
        ensures locks { turn_locks result.1 ≡ self.now.locks }
    {
        self.row.take(rt, stripe as usize, pass)
    }

    /// Ends the level with all of its passes, in any order, and adds its stripes together. What is left has the postings of
    /// all passes, each once, and no others: its log is the logs of the stripes, stripe 0 first, and each stripe's log has
    /// that stripe's tiles. Each entry has a pass's number, and the entries of a pass's number are that pass's own, by
    /// stripes, in order. It takes no memory.
    pub fn finish(self, passes: Vec<LevelPass<'a>>) -> Finished<'a>
        requires mine { AllByRecursion (λ pass. locks_of pass ≡ self.locks) passes.items }
        requires all { vec_len passes ≡ self.passes }
        ensures plan { result.plan ≡ self.entry.plan }
        ensures stripes { FromStripes self.entry.plan.tiles passes.entry.items result.log }
        ensures seen { AllByRecursion (λ pass. Has (seen_of pass) result.log) passes.entry.items }
        ensures own { AllByRecursion (λ pass. (number : ℕ) → IsNumbered number pass
            → own_of pass ≡ entries_of (λ (e : Entry). e.number) number result.log) passes.entry.items }
        ensures numbers { NumberedOnce number_of passes.entry.items }
        ensures entries { AllByRecursion (λ (e : Entry). e.number < vec_len passes.entry) result.log }
    {
        let Level { plan: _, mut row } = self;
        let mut passes = passes;
        let first = row.close_first(&mut passes);
        let mut state = first.into_state();
        for _ in 0..row.len() {
            let next = row.close_first(&mut passes);
            state.join(next.into_state());
        }
        Finished::of(state)
    }
}
