//! The intake: made with its passes, and uploaded to by whoever has one.
//! An upload waits for its turn, enters the share, and gives the state back.

ghost use Rattle.std.specs.Prelude.{◌≡◌, ◌<◌, ◌≤◌, ◌++◌, List, [], ◌∷◌, IfOk, IfErr, OnOk, OnErr, vec_len};
ghost use Rattle.std.specs.List.{AllByRecursion};
ghost use Rattle.core_definitions.specs.System.{Entry, reply_to, uploaded, IsLegalAfter};
ghost use Rattle.turn_lock.specs.Logs.{GrewBy};
ghost use Rattle.turn_lock.specs.Seen.{fresh_passes};
ghost use Rattle.report_intake.specs.History.{numbered, IsUploaded, IsAsBefore, IsHistory};

use crate::held::HeldIntake;
use crate::passes::UploadPass;
use core_definitions::Reply;
use definitions::Side;
use idpf_eval::Share;
use intake_state::IntakeState;
use std::alloc::{AllocError, Global};
use std::marker::Model;
use std::sync::Wait;
use turn_lock::Turn;

/// The intake of one side, to be shared by `&`. Contracts see the side, which intake it is, and how many passes it has.
#[derive(Drop)]
pub struct Intake {
    side: Side,
    turn: Turn<HeldIntake>,
}

impl Model for Intake {
    ghost use Rattle.std.specs.Prelude.{◌<◌};
    ghost use Rattle.report_intake.specs.Seen.{IntakeSeen};

    ghost Value = { IntakeSeen };

    ghost view = { λ intake. record { side = intake.side; lock = intake.turn.lock; passes = intake.turn.passes } };

    ghost invariant = { λ intake. 0 < intake.turn.passes };
}

impl Intake {
    /// The intake of a side, without an entry, with 1 to 64 passes. Pass k of the list, counted from 0, has the number k, has
    /// seen the empty log and has no own entry.
    pub fn new(
        alloc: Global,
        side: Side,
        passes: u32,
    ) -> Result<(Intake, Vec<UploadPass>), AllocError>
        requires count { (1 ≤ passes) × (passes ≤ 64) }
        ensures side { IfOk result (λ made. made.0.side ≡ side) }
        ensures count { IfOk result (λ made. made.0.passes ≡ passes) }
        ensures passes { IfOk result (λ made. made.1.items ≡ fresh_passes made.0.lock passes) }
    {
        let mut made = Vec::with_capacity(alloc, passes as usize)?;
        let (turn, all) = Turn::new(alloc, HeldIntake(IntakeState::new(alloc)), passes)?;
        for pass in all {
            made.push(UploadPass::of_pass(pass))?;
        }
        Ok((Intake { side, turn }, made))
    }

    /// The side whose reports it takes in.
    pub fn side(&self) -> Side
        ensures { result ≡ self.now.side }
    {
        self.side
    }

    /// Waits until it is the pass's turn, and enters the share under the pass's number.
    ///
    /// The log that the pass has seen afterwards begins with what it had seen, ends with this entry, and is legal: each reply
    /// in it is the one that the entries before it ask for. The entries in it under the pass's number are the pass's own, in
    /// order, and these are the ones before and this one. Nothing is promised on when the turn comes.
    ///
    /// `AllocError` is want of memory: the share comes back, and the pass's own entries are as before, though it may have seen
    /// entries of others.
    pub fn upload<R: Wait>(
        &self,
        rt: &R,
        pass: UploadPass,
        share: Share,
    ) -> Result<(Reply, UploadPass), (AllocError, Share, UploadPass)>
        requires this_intake { pass.lock ≡ self.now.lock }
        ensures same { IfOk result (λ done. (done.1.lock ≡ pass.lock) × (done.1.number ≡ pass.number)) }
        ensures entered { IfOk result (λ done. IsUploaded pass done.1 share done.0) }
        ensures legal { IfOk result (λ done. IsLegalAfter [] done.1.seen) }
        ensures own { IfOk result (λ done. done.1.own ≡ numbered pass.number done.1.seen) }
        ensures returned { IfErr result (λ refused. refused.1 ≡ share) }
        ensures unchanged { IfErr result (λ refused. IsAsBefore pass refused.2) }
    {
        let (HeldIntake(mut state), turn) = self.turn.take(rt, pass.into_pass());
        let outcome = enter(&mut state, turn.number(), share);
        let pass = UploadPass::of_pass(self.turn.give(HeldIntake(state), turn));
        match outcome {
            Ok(reply) => Ok((reply, pass)),
            Err((refused, share)) => Err((refused, share, pass)),
        }
    }

    /// Ends the intake with all of its passes, in any order, and gives its state back, whose log is the whole history.
    pub(crate) fn close(self, passes: Vec<UploadPass>) -> IntakeState
        requires this_intake { AllByRecursion (λ pass. pass.lock ≡ self.lock) passes.items }
        requires all { vec_len passes ≡ self.passes }
        ensures history { IsHistory passes.items result }
    {
        let Intake { side: _, turn } = self;
        let mut passes = passes;
        let Some(last) = passes.pop() else {
            unreachable!()
        };
        let mut ending = turn.end_with(last.into_pass());
        while let Some(pass) = passes.pop() {
            ending = ending.hand_in(pass.into_pass());
        }
        let HeldIntake(state) = ending.end();
        state.entries();
        state
    }
}

/// Enters the share; the log is legal, and grew by entries of that number alone.
pub(crate) fn enter(
    state: &mut IntakeState,
    number: u32,
    share: Share,
) -> Result<Reply, (AllocError, Share)>
    ensures reply { IfOk result (λ reply. reply ≡ reply_to state.old share) }
    ensures entered { OnOk result (state.new ≡ uploaded state.old number share) }
    ensures unchanged { OnErr result (state.new ≡ state.old) }
    ensures returned { IfErr result (λ refused. refused.1 ≡ share) }
    ensures grew { GrewBy {E = Entry} (λ e. e.number) number state.old state.new }
    ensures legal { IsLegalAfter [] state.new }
{
    let outcome = state.upload(number, share);
    state.entries();
    outcome
}
