//! A pass of a row: one pass for each of its locks, in their order.
ghost use Rattle.std.specs.Prelude.{◌≡◌, ◌<◌, [], ◌∷◌, ◌++◌, length, OnOk, IfOk};

use std::alloc::{AllocError, Global};
use std::marker::Model;
use turn_lock::{Held, Pass};

/// A pass of a row of locks. Contracts see the list of its passes, one for each lock.
#[derive(Drop)]
pub struct RowPass<S: Held> {
    passes: Vec<Pass<S>>,
}

impl<S: Held> Model for RowPass<S> {
    ghost use Rattle.std.specs.Prelude.{List};
    ghost use Rattle.turn_lock.specs.Seen.{PassSeen};

    ghost Value = { List (PassSeen S.Plan S.Entry) };

    ghost view = { λ pass. pass.passes.items };
}

impl<S: Held> RowPass<S> {
    /// No lock yet, with room for so many.
    pub(crate) fn with_room(alloc: Global, locks: usize) -> Result<RowPass<S>, AllocError>
        ensures { IfOk result (λ pass. pass ≡ []) }
    {
        Ok(RowPass {
            passes: Vec::with_capacity(alloc, locks)?,
        })
    }

    /// The passes.
    pub(crate) fn into_passes(self) -> Vec<Pass<S>>
        ensures { result.items ≡ self }
    {
        self.passes
    }

    /// The pass of these.
    pub(crate) fn from_passes(passes: Vec<Pass<S>>) -> RowPass<S>
        ensures { result ≡ passes.items }
    {
        RowPass { passes }
    }
}

impl<S: Held + Drop> RowPass<S> {
    /// A further lock, at the end.
    pub(crate) fn push(&mut self, pass: Pass<S>) -> Result<(), AllocError>
        ensures added { OnOk result (self.new ≡ self.old ++ pass ∷ []) }
    {
        self.passes.push(pass)?;
        Ok(())
    }

    /// The pass of the first lock, which goes.
    pub(crate) fn take_first(&mut self) -> Pass<S>
        requires { 0 < length self.old }
        ensures { self.old ≡ result ∷ self.new }
    {
        self.passes.remove(0)
    }
}
