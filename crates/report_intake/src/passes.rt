//! A pass of an intake: the right to upload to it, one share at a time.
//! It knows a beginning of the intake's history, and all entries under its number.

ghost use Rattle.std.specs.Prelude.{◌≡◌};

use crate::held::HeldIntake;
use std::marker::Model;
use turn_lock::Pass;

/// A pass of an intake. Contracts see which intake made it, its number, the log that it has seen last, and its own entries
/// in order.
#[derive(Drop)]
pub struct UploadPass {
    pass: Pass<HeldIntake>,
}

impl Model for UploadPass {
    ghost use Rattle.report_intake.specs.Seen.{UploadPassSeen};

    ghost Value = { UploadPassSeen };

    ghost view = { λ p. p.pass };
}

impl UploadPass {
    /// The number of the pass: 0 for the intake's first pass, 1 for the second, and so on.
    pub fn number(&self) -> u32
        ensures { result ≡ self.now.number }
    {
        self.pass.number()
    }

    /// The pass of the lock.
    pub(crate) fn into_pass(self) -> Pass<HeldIntake>
        ensures { result ≡ self }
    {
        let UploadPass { pass } = self;
        pass
    }

    /// An upload's pass over a pass of the lock.
    pub(crate) fn of_pass(pass: Pass<HeldIntake>) -> UploadPass
        ensures { result ≡ pass }
    {
        UploadPass { pass }
    }
}
