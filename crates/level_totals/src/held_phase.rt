//! The value behind the lock of one stripe of a level: a state of the whole plan, in which tiles of that stripe alone are posted.
//! Its plan and its stripe stay, and its log grows by the postings of the pass in turn.

ghost use Rattle.std.specs.Prelude.{◌≡◌, ◌<◌, [], map, IfOk};
ghost use Rattle.std.specs.List.{AllByRecursion};
ghost use Rattle.tile_claims.specs.Plans.{tiles_of};
ghost use Rattle.phase_state.specs.Sums.{IsPhasePlan};
ghost use Rattle.phase_state.specs.Logs.{IsPosted};
ghost use Rattle.phase_state.specs.Phases.{IsPart};
ghost use Rattle.level_totals.specs.Stripes.{stripe_of, AreOfStripe, stripe_plan, plan_of, stripe_plans};

use crate::stripes::stripes_of;
use phase_state::{Part, PhasePlan, PhaseState, PlanSeen, Posted, Posting};
use std::alloc::{AllocError, Global};
use std::marker::Model;
use turn_lock::Held;

/// A phase's state, as the lock of a stripe holds it. Contracts see the state and the number of the stripe.
#[derive(Drop)]
pub struct HeldPhase<'a> {
    state: PhaseState<'a>,
    stripe: u32,
}

impl<'a> Model for HeldPhase<'a> {
    ghost use Rattle.level_totals.specs.Stripes.{HeldSeen, AreOfStripe};

    ghost Value = { HeldSeen };

    ghost view = { λ held. record { state = held.state; stripe = held.stripe } };

    ghost invariant = { λ held. AreOfStripe held.state.plan.tiles held.stripe held.state.log };
}

/// What stays the same behind a lock: the plan, and the number of the stripe. No value of it is made: proofs alone see it.
pub struct StripePlan {
    pub plan: PlanSeen,
    pub stripe: u32,
}

impl<'a> Held for HeldPhase<'a> {
    type Plan = StripePlan;

    type Entry = Posting;

    ghost plan = { plan_of };

    ghost log = { λ held. held.state.log };

    ghost by = { λ entry. entry.number };
}

impl<'a> HeldPhase<'a> {
    /// A stripe of a phase of which nothing is posted.
    pub(crate) fn new(
        alloc: Global,
        plan: PhasePlan<'a>,
        stripe: u32,
    ) -> Result<HeldPhase<'a>, AllocError>
        requires { IsPhasePlan plan }
        ensures plan { IfOk result (λ held. plan_of held ≡ stripe_plan plan.entry stripe) }
        ensures empty { IfOk result (λ held. held.state.log ≡ []) }
    {
        Ok(HeldPhase {
            state: PhaseState::new(alloc, plan)?,
            stripe,
        })
    }

    /// Posts a tile of its own stripe, as [`PhaseState::post`] does.
    pub(crate) fn post(&mut self, number: u32, tile: u32, part: &Part<'_>) -> Posted
        requires tile { tile < tiles_of self.old.state.plan.tiles }
        requires stripe { stripe_of self.old.state.plan.tiles tile ≡ self.old.stripe }
        requires part { IsPart self.old.state.plan tile part.now }
        ensures same { plan_of self.new ≡ plan_of self.old }
        ensures log { IsPosted result number tile self.old.state.log self.new.state.log }
    {
        self.state.post(number, tile, part)
    }

    /// The state.
    pub(crate) fn into_state(self) -> PhaseState<'a>
        ensures state { result ≡ self.entry.state }
        ensures tiles { AreOfStripe self.entry.state.plan.tiles self.entry.stripe self.entry.state.log }
    {
        self.state
    }
}

/// Each stripe of a phase, in order, of which nothing is posted.
pub(crate) fn empty_stripes<'a>(
    alloc: Global,
    plan: &PhasePlan<'a>,
) -> Result<Vec<HeldPhase<'a>>, AllocError>
    requires { IsPhasePlan plan.now }
    ensures plans { IfOk result (λ made. map plan_of made.items ≡ stripe_plans plan.now) }
    ensures empty { IfOk result (λ made. AllByRecursion (λ held. held.state.log ≡ []) made.items) }
{
    let stripes = stripes_of(&plan.tiles);
    let mut made = Vec::with_capacity(alloc, stripes as usize)?;
    for stripe in 0..stripes {
        made.push_reserved(HeldPhase::new(alloc, plan.copy(), stripe)?);
    }
    Ok(made)
}
