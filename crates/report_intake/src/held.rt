//! The state of an intake as a lock holds it.
//! Its log is the state's; nothing but the log changes, so its plan is empty.

use intake_state::{Entry, IntakeState};
use std::marker::Model;
use turn_lock::Held;

/// The state of one side's intake, to be held by a lock. It is seen as the state's log.
#[derive(Drop)]
pub struct HeldIntake(pub IntakeState);

impl Model for HeldIntake {
    ghost use Rattle.std.specs.Prelude.{List};
    ghost use Rattle.core_definitions.specs.System.{Entry as Upload};

    ghost Value = { List Upload };

    ghost view = { λ held. held.0 };
}

impl Held for HeldIntake {
    type Plan = ();

    type Entry = Entry;

    ghost plan = { λ _. tt };

    ghost log = { λ held. held };

    ghost by = { λ entry. entry.number };
}
