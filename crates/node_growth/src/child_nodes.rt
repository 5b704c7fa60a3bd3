//! The parts of one child: its corrected seed, and its node by what that seed is converted to.

ghost use Rattle.std.specs.Prelude.{◌≡◌};
ghost use Rattle.definitions.specs.Words.{extend, convert};
ghost use Rattle.definitions.specs.Evaluation.{child, child_seed, child_value};

use field64::Fe;
use idpf_eval::{LevelWord, Node};
use prefix_bits::Side;
use seed_expand::{Children, Converted, Seed, xor};

/// A side's element at a child: the child's own, corrected where its bit is set, and negated at side 1.
fn child_value(side: Side, bit: bool, own: u128, correction: Fe) -> Fe
    ensures value { result ≡ child_value side bit own correction }
{
    let own = Fe::from_u128(own);
    let corrected = if bit { own.add(correction) } else { own };
    match side {
        Side::Zero => corrected,
        Side::One => corrected.neg(),
    }
}

/// The corrected seed of a node's child along a bit, from the children of the node's seed.
pub(crate) fn corrected(word: &LevelWord, node: &Node, children: &Children, bit: bool) -> Seed
    requires children { children.now ≡ extend node.now.seed }
    ensures seed { result ≡ child_seed word.now node.now.seed node.now.bit bit }
{
    let kept = if bit { children.right } else { children.left };
    if node.bit {
        xor(&kept, &word.seed)
    } else {
        kept
    }
}

/// The child of a node along a bit, from the children of the node's seed and from what the child's corrected seed is converted to.
#[tactic(auto, unfolding(definitions::specs::Evaluation::child))]
pub(crate) fn finished(
    word: &LevelWord,
    side: Side,
    node: &Node,
    children: &Children,
    bit: bool,
    converted: &Converted,
) -> Node
    requires children { children.now ≡ extend node.now.seed }
    requires converted { converted.now ≡ convert (child_seed word.now node.now.seed node.now.bit bit) }
    ensures node { result ≡ child word.now side node.now bit }
{
    let (kept, correction) = if bit {
        (children.bit_right, word.right)
    } else {
        (children.bit_left, word.left)
    };
    let set = if node.bit { kept ^ correction } else { kept };
    Node {
        seed: converted.next,
        bit: set,
        d: child_value(side, set, converted.u, word.u),
        e: child_value(side, set, converted.v, word.v),
    }
}
