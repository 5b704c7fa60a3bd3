//! Laws of evaluation over the definitions alone, each the contract of a function that does nothing.
//! They say that the definition of a node is the recursion over the bits of its prefix.

ghost use Rattle.definitions.specs.Laws.{RootLaw, ChildLaw};

/// At the empty prefix a side has its root: the share's root seed, the side's number as its bit, and the value (0, 0).
pub fn the_empty_prefix_has_the_root()
    ensures root { RootLaw }
{}

/// At a prefix followed by a bit a side has the child, along that bit, of its node at the prefix.
pub fn a_longer_prefix_has_the_child()
    ensures child { ChildLaw }
{}
