//! What holds of every batch, over the definitions alone, each law the contract of a function that does nothing.
//! Callers take from them what they know of a batch's shares.

ghost use Rattle.report_batch.specs.Laws.{GivenLaw, LevelsLaw, SizeLaw};

/// Each report of a batch is made of two shares that were given, one on each side, and both have its id.
pub fn batches_hold_given_shares()
    ensures given { GivenLaw }
{}

/// Where all shares given have so many levels, so have all shares of the batch, on both sides.
pub fn batches_keep_levels()
    ensures levels { LevelsLaw }
{}

/// A batch has at most as many reports as each side has shares.
pub fn batches_are_no_longer()
    ensures size { SizeLaw }
{}
