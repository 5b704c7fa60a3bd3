//! What holds of the shares that are made of strings, over the definitions alone, each law the contract of a function that
//! does nothing. Callers that walk over made shares take from them what the walk finds.

ghost use Rattle.pair_shares.specs.Laws.{LevelsLaw, BatchLaw, WalkLaw};

/// Each list has a share for each string, and each share as many levels as its string has bits.
pub fn made_shares_are_whole()
    ensures levels { LevelsLaw }
{}

/// The batch of the two lists has one report for each string, in the order of the strings: no two ids are equal, and they
/// ascend with the lines.
pub fn made_pairs_are_the_batch()
    ensures batch { BatchLaw }
{}

/// A walk over them passes every report at every level, its survivors are the frequent prefixes of the strings, and it ends
/// as these say: at the first level that is the last, has none, or has too many.
pub fn walks_over_made_pairs_are_exact()
    ensures walk { WalkLaw }
{}
