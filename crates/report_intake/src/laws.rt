//! What an intake's history says of its passes' own entries, over the definitions alone.
//! The law is the contract of a function that does nothing.

ghost use Rattle.report_intake.specs.Laws.{OwnLaw};

/// The shares of a history are those of its passes' own entries, in whatever order the passes are taken.
pub fn a_history_is_the_passes_own_entries()
    ensures own { OwnLaw }
{}
