//! Two laws of key generation, over the definitions alone: the values of a generated pair add up to a point function,
//! and a generated pair passes the check. Each is the contract of a function that does nothing.
#![tactic(auto)]

ghost use Rattle.generation_laws.specs.Points.{PointLaw};
ghost use Rattle.generation_laws.specs.Honest.{HonestLaw};

/// At each prefix the two sides' values add up to 1 and the level's data where the string begins with the prefix, and
/// to 0 and 0 elsewhere, whatever the seeds and coins.
pub fn pairs_add_up_to_the_point()
    ensures point { PointLaw }
{}

/// A generated pair passes each level of the check, over every list of different prefixes of that level.
pub fn generated_pairs_pass()
    ensures honest { HonestLaw }
{}
