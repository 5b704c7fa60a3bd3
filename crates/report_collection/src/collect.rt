//! The collection of both sides: made for so many uploaders, added to list by list, and sealed.
//! It is seen as one list of shares for each side; the batch depends on no order of them.

ghost use Rattle.std.specs.Prelude.{◌≡◌, ◌≤◌, ◌++◌, [], IfOk, OnOk, OnErr};
ghost use Rattle.std.specs.List.Sorted.{IsPermutation};
ghost use Rattle.definitions.specs.declared.Side.TheVariants.{Zero, One};
ghost use Rattle.walk_definitions.specs.Reports.{batch};
ghost use Rattle.report_collection.specs.Collections.{AddsSome, shares_on, opposite};

use crate::side_collection::SideCollection;
use definitions::Side;
use idpf_eval::Share;
use report_batch::Batch;
use report_intake::laws::a_history_is_the_passes_own_entries;
use report_intake::seal;
use shelf_io::Gate;
use std::alloc::{AllocError, Global};
use std::marker::Model;
use std::sync::Wait;
use std::thread::Threads;
use walk_definitions::laws::batches_know_no_order;

/// Both sides' shares, as they are collected. Contracts see one list of shares for each side.
#[derive(Drop)]
pub struct Collect {
    alloc: Global,
    zero: SideCollection,
    one: SideCollection,
}

impl Model for Collect {
    ghost use Rattle.std.specs.Prelude.{◌≡◌};
    ghost use Rattle.definitions.specs.declared.Side.TheVariants.{Zero, One};
    ghost use Rattle.report_collection.specs.Collections.{CollectSeen};

    ghost Value = { CollectSeen };

    ghost view = { λ c. record { zero = c.zero.shares; one = c.one.shares } };

    ghost invariant = { λ c. (c.zero.side ≡ Zero) × (c.one.side ≡ One) };
}

impl Collect {
    /// No share on either side, for 1 to 64 uploaders a side. `AllocError` is want of memory.
    pub fn new(alloc: Global, uploaders: u32) -> Result<Collect, AllocError>
        requires uploaders { (1 ≤ uploaders) × (uploaders ≤ 64) }
        ensures empty { IfOk result (λ c. c ≡ record { zero = []; one = [] }) }
    {
        Ok(Collect {
            alloc,
            zero: SideCollection::new(alloc, Side::Zero, uploaders)?,
            one: SideCollection::new(alloc, Side::One, uploaders)?,
        })
    }

    /// Uploads the shares to a side, each once, by all uploaders at once, in threads of their own where these can be made. The
    /// gate is told of each upload before it is made. The side's list is then, up to order, the old one and the shares.
    ///
    /// It waits: the uploaders take turns at the side's intake, and nothing is promised on when they come.
    ///
    /// `AllocError` is want of memory: some of the shares were then added, each at most once, and the others are given up.
    pub fn add<R: Threads + Wait + Sync, G: Gate>(
        &mut self,
        rt: &R,
        side: Side,
        shares: Vec<Share>,
        gate: &G,
    ) -> Result<(), AllocError>
        ensures added { OnOk result (IsPermutation (shares_on side self.old ++ shares.items) (shares_on side self.new)) }
        ensures other { shares_on (opposite side) self.new ≡ shares_on (opposite side) self.old }
        ensures part { OnErr result (AddsSome (shares_on side self.old) shares.items (shares_on side self.new)) }
    {
        match side {
            Side::Zero => self.zero.add(rt, self.alloc, shares, gate),
            Side::One => self.one.add(rt, self.alloc, shares, gate),
        }
    }

    /// The batch of both lists: the ids that have one content on each side, ascending by bytes, each with its two shares. It
    /// waits for nobody. After `AllocError` the shares are given up.
    pub fn seal(self) -> Result<Batch, AllocError>
        ensures exact { IfOk result (λ b. b ≡ batch self.zero self.one) }
    {
        let Collect { alloc, zero, one } = self;
        let (zero, passes_zero) = zero.into_intake();
        let (one, passes_one) = one.into_intake();
        a_history_is_the_passes_own_entries();
        batches_know_no_order();
        let batch = seal(alloc, zero, one, passes_zero, passes_one)?;
        Ok(batch)
    }
}
