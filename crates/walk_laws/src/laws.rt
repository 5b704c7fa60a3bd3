//! The laws by name. The definitions are those of `walk_definitions`; none of its words is defined anew here.

ghost use Rattle.walk_laws.specs.HeavyStrings.{HeavyPrefixesLaw, HeavyStringsLaw};
ghost use Rattle.walk_laws.specs.Standing.{BatchIsExact};
ghost use Rattle.walk_laws.specs.LastLevel.{EndingLaw, WalkEndLaw};

/// The heavy prefixes of a level ascend, each once, and are exactly the prefixes of that length with which at least
/// `threshold` of the strings begin, each with the plain number of these strings.
pub fn heavy_prefixes_are_exact()
    ensures prefixes { HeavyPrefixesLaw }
{}

/// The heavy strings ascend, each once, and are exactly the strings that at least `threshold` members hold, each with
/// the plain number of these members.
pub fn heavy_strings_are_exact()
    ensures strings { HeavyStringsLaw }
{}

/// The batch has exactly the ids that stand on both sides, ascending, each once, with the two shares that stand.
pub fn batches_are_exact()
    ensures batch { BatchIsExact }
{}

/// A walk ends at its first level that is the last of all, has no survivors or has too many, and at no other; with the
/// survivors and the number that passed there, or, where there are too many before the last level, with twice their number.
pub fn walks_end_at_their_first_last_level()
    ensures ending { EndingLaw }
    ensures walk { WalkEndLaw }
{}
