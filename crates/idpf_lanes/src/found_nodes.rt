//! Nodes of which some are known: which prefixes are wanted, and the known nodes put in place of those that were made.

ghost use Rattle.std.specs.Prelude.{◌≡◌, ℕ, ◌≤◌, ◌<◌, [], length, map, slice_index_or, Option, None, IsSome, IsNone};
ghost use Rattle.definitions.specs.Evaluation.{node as node_of};
ghost use Rattle.node_growth.specs.Steps.{no_node};
ghost use Rattle.idpf_lanes.specs.Stands.{AreLong, AreFound};

use idpf_eval::{Node, Share};
use prefix_bits::{Prefix, Side};

/// The first place at which no node was found, or the number of places.
pub(crate) fn first_missing(found: &[Option<Node>]) -> usize
    ensures most { result ≤ length found.now }
    ensures found { (k : ℕ) → k < result → IsSome (slice_index_or found.now k None) }
    ensures missing { result < length found.now → IsNone (slice_index_or found.now result None) }
{
    for k in 0..found.len() {
        if found[k].is_none() {
            return k;
        }
    }
    found.len()
}

/// The prefixes without a node, at their own places. At the place of one with a node stands the last one without before it, or the
/// first of all: repeats stand together then and cost nothing.
pub(crate) fn want(
    prefixes: &[Prefix],
    found: &[Option<Node>],
    first: usize,
    level: u16,
    wanted: &mut [Prefix],
)
    requires same { length found.now ≡ length prefixes.now }
    requires wanted { length wanted.old ≡ length prefixes.now }
    requires first { first < length prefixes.now }
    requires bits { AreLong level prefixes.now }
    ensures same { length wanted.new ≡ length prefixes.now }
    ensures bits { AreLong level wanted.new }
    ensures missing { (k : ℕ) → k < length prefixes.now → IsNone (slice_index_or found.now k None)
        → slice_index_or wanted.new k [] ≡ slice_index_or prefixes.now k [] }
{
    let mut last = prefixes[first];
    for k in 0..prefixes.len() {
        if found[k].is_none() {
            last = prefixes[k];
        }
        wanted[k] = last;
    }
}

/// Puts the nodes that were found over those that were made.
pub(crate) fn put_found(
    share: &Share,
    side: Side,
    prefixes: &[Prefix],
    found: &[Option<Node>],
    into: &mut [Node],
)
    requires same { length found.now ≡ length prefixes.now }
    requires into { length into.old ≡ length prefixes.now }
    requires found { AreFound share.now side prefixes.now found.now }
    requires made { (k : ℕ) → k < length prefixes.now → IsNone (slice_index_or found.now k None)
        → slice_index_or into.old k no_node ≡ node_of share.now side (slice_index_or prefixes.now k []) }
    ensures nodes { into.new ≡ map (node_of share.now side) prefixes.now }
{
    for k in 0..found.len() {
        if let Some(node) = found[k] {
            into[k] = node;
        }
    }
}
