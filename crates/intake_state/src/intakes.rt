//! The state of one side's intake: its log, and for each id where it was first uploaded.
//! It is seen as the log, as a list of the records of `core_definitions`.

ghost use Rattle.std.specs.Prelude.{◌≡◌, [], map, length, IfOk, IfErr, OnOk, OnErr};
ghost use Rattle.core_definitions.specs.System.{reply_to, uploaded, IsLegalAfter};

use crate::entries::Entry;
use crate::firsts::{First, first_after, reply_after};
use core_definitions::Reply;
use idpf_eval::Share;
use prefix_bits::ReportId;
use std::alloc::{AllocError, Global};
use std::collections::BTreeMap;
use std::marker::Model;

/// The uploads of one side, in order. Each reply in the log is the one that the entries before it ask for.
#[derive(Drop)]
pub struct IntakeState {
    log: Vec<Entry>,
    firsts: BTreeMap<ReportId, First>,
}

impl Model for IntakeState {
    ghost use Rattle.std.specs.Prelude.{List};
    ghost use Rattle.core_definitions.specs.System.{Entry as Upload};
    ghost use Rattle.intake_state.specs.Firsts.{IsIndexed};

    ghost Value = { List Upload };

    ghost view = { λ s. s.log.items };

    ghost invariant = { λ s. IsIndexed s.log.items s.firsts };
}

impl IntakeState {
    /// No entry yet. It takes no memory before the first upload.
    pub fn new(alloc: Global) -> IntakeState
        ensures empty { result ≡ [] }
    {
        IntakeState {
            log: Vec::new(alloc),
            firsts: BTreeMap::new(alloc),
        }
    }

    /// Enters a share under a number, and answers it. The reply is `Stored` exactly where no earlier entry has the share's
    /// id, `Clash` exactly where an earlier entry of the id has another content, and else `Repeat`; whatever it is, exactly
    /// one entry is added at the log's end. The time is that of looking the id up among those of the log.
    ///
    /// `AllocError` is want of memory; then the log is as before, and the share comes back.
    pub fn upload(&mut self, number: u32, share: Share) -> Result<Reply, (AllocError, Share)>
        ensures reply { IfOk result (λ reply. reply ≡ reply_to self.old share) }
        ensures entered { OnOk result (self.new ≡ uploaded self.old number share) }
        ensures unchanged { OnErr result (self.new ≡ self.old) }
        ensures returned { IfErr result (λ refused. refused.1 ≡ share) }
    {
        let id = share.id;
        let before = self.firsts.get(&id).copied();
        let reply = reply_after(&self.log, before, &share);
        let first = first_after(before, self.log.len(), reply);
        let Ok(()) = self.log.reserve(1) else {
            return Err((AllocError, share));
        };
        let Ok(_) = self.firsts.insert(id, first) else {
            return Err((AllocError, share));
        };
        self.log.push_reserved(Entry {
            number,
            share,
            reply,
        });
        Ok(reply)
    }

    /// The log, in the order of the uploads. Each reply is the one that the entries before it ask for.
    pub fn entries(&self) -> &[Entry]
        ensures log { result.now ≡ self.now }
        ensures legal { IsLegalAfter [] self.now }
    {
        &self.log
    }

    /// The shares of all entries, in the order of the uploads. After `AllocError` they are given up.
    pub fn into_shares(self, alloc: Global) -> Result<Vec<Share>, AllocError>
        ensures shares { IfOk result (λ shares. shares.items ≡ map (λ e. e.share) self) }
    {
        let IntakeState { log, firsts: _ } = self;
        let mut shares = Vec::with_capacity(alloc, log.len())?;
        for entry in log {
            shares.push(entry.share)?;
        }
        Ok(shares)
    }
}
