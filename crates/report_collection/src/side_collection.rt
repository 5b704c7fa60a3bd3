//! The collection of one side: its intake, with a pass for each uploader.
//! It is seen as the list of the shares that were uploaded, pass by pass.

ghost use Rattle.std.specs.Prelude.{◌≡◌, ◌<◌, ◌≤◌, ◌++◌, [], flat_map, IfOk, OnOk, OnErr, vec_len};
ghost use Rattle.std.specs.Bool.{OnTrue};
ghost use Rattle.std.specs.List.{AllByRecursion};
ghost use Rattle.std.specs.List.Sorted.{IsPermutation};
ghost use Rattle.report_collection.specs.Collections.{AddsSome};
ghost use Rattle.report_collection.specs.Uploads.{IsOf, own_of};

use crate::dealing::{deal, get_up, sit_down};
use crate::uploader::{Uploader, all_upload_at};
use definitions::Side;
use idpf_eval::Share;
use report_intake::{Intake, UploadPass};
use shelf_io::Gate;
use std::alloc::{AllocError, Global};
use std::marker::Model;
use std::sync::Wait;
use std::thread::Threads;

/// One side's shares. Contracts see the side and the list of shares that were uploaded.
#[derive(Drop)]
pub struct SideCollection {
    intake: Intake,
    passes: Vec<UploadPass>,
    seats: Vec<Option<Uploader>>,
}

impl Model for SideCollection {
    ghost use Rattle.std.specs.Prelude.{◌≡◌, ◌<◌, ◌≤◌, [], vec_len, vec_capacity};
    ghost use Rattle.std.specs.List.{AllByRecursion};
    ghost use Rattle.report_collection.specs.Collections.{SideSeen};
    ghost use Rattle.report_collection.specs.Uploads.{IsOf, own_of};

    ghost Value = { SideSeen };

    ghost view = { λ c. record { side = c.intake.side; uploaders = c.intake.passes; shares = own_of c.passes.items } };

    ghost invariant = { λ c. (0 < vec_len c.passes) × (vec_len c.passes ≡ c.intake.passes)
        × AllByRecursion (IsOf c.intake.lock) c.passes.items
        × (c.seats.items ≡ []) × (vec_len c.passes ≤ vec_capacity c.seats) };
}

impl SideCollection {
    /// No share yet, with 1 to 64 uploaders.
    pub fn new(alloc: Global, side: Side, uploaders: u32) -> Result<SideCollection, AllocError>
        requires count { (1 ≤ uploaders) × (uploaders ≤ 64) }
        ensures empty { IfOk result (λ c. c ≡ record { side = side; uploaders = uploaders; shares = [] }) }
    {
        let seats = Vec::with_capacity(alloc, uploaders as usize)?;
        let (intake, passes) = Intake::new(alloc, side, uploaders)?;
        Ok(SideCollection {
            intake,
            passes,
            seats,
        })
    }

    /// The uploaders upload the shares at once.
    pub fn add<R: Threads + Wait + Sync, G: Gate>(
        &mut self,
        rt: &R,
        alloc: Global,
        shares: Vec<Share>,
        gate: &G,
    ) -> Result<(), AllocError>
        ensures side { self.new.side ≡ self.old.side }
        ensures added { OnOk result (IsPermutation (self.old.shares ++ shares.items) self.new.shares) }
        ensures part { OnErr result (AddsSome self.old.shares shares.items self.new.shares) }
    {
        let queues = deal(alloc, shares, self.passes.len())?;
        if !self.upload(rt, queues, gate) {
            return Err(AllocError);
        }
        Ok(())
    }

    /// Each uploader uploads a list of shares, all at once. The answer is whether all shares were uploaded.
    fn upload<R: Threads + Wait + Sync, G: Gate>(
        &mut self,
        rt: &R,
        queues: Vec<Vec<Share>>,
        gate: &G,
    ) -> bool
        requires count { vec_len queues ≡ self.old.uploaders }
        ensures same { (self.new.side ≡ self.old.side) × (self.new.uploaders ≡ self.old.uploaders) }
        ensures all { OnTrue result (IsPermutation (self.old.shares ++ flat_map (λ queue. queue.items) queues.items) self.new.shares) }
        ensures some { AddsSome self.old.shares (flat_map (λ queue. queue.items) queues.items) self.new.shares }
    {
        sit_down(&mut self.passes, queues, &mut self.seats);
        all_upload_at(rt, &self.intake, gate, &mut self.seats);
        get_up(&mut self.seats, &mut self.passes)
    }

    /// The intake, with all of its passes.
    pub fn into_intake(self) -> (Intake, Vec<UploadPass>)
        ensures side { result.0.side ≡ self.side }
        ensures shares { own_of result.1.items ≡ self.shares }
        ensures ours { AllByRecursion (IsOf result.0.lock) result.1.items }
        ensures all { vec_len result.1 ≡ result.0.passes }
    {
        let SideCollection {
            intake,
            passes,
            seats: _,
        } = self;
        (intake, passes)
    }
}
