//! Evaluation of one side's share: the root, one step to a child, and a whole prefix.
//! Each expansion of a seed is one step of the caller's counter.

ghost use Rattle.std.specs.Prelude.{◌≡◌, ◌+◌, ◌<◌, ◌≤◌, length};
ghost use Rattle.definitions.specs.Evaluation.{root, child, level_word, node as node_of, child_value};

use crate::nodes::Node;
use crate::shares::Share;
use field64::Fe;
use prefix_bits::{Prefix, Side};
use seed_expand::{Steps, convert, extend, xor};
use std::marker::Brand;
use std::sync::ledger::{Blank, Ledger};

/// A side's node at the empty prefix: the share's root seed, the side's number as its bit, and the value (0, 0).
pub fn root(share: &Share, side: Side) -> Node
    ensures value { result ≡ root share.now side }
{
    Node {
        seed: share.root,
        bit: side == Side::One,
        d: Fe::zero(),
        e: Fe::zero(),
    }
}

/// A side's element at a child: the child's own, corrected where its bit is set, and negated at side 1.
fn child_value(side: Side, bit: bool, own: u128, correction: Fe) -> Fe
    ensures value { result ≡ child_value side bit own correction }
{
    let own = Fe::from_u128(own);
    let corrected = if bit { own.add(correction) } else { own };
    match side {
        Side::Zero => corrected,
        Side::One => corrected.neg(),
    }
}

/// The child of a node along a bit, by the word of the level that is the child's length, counted from 1.
/// This is one step of the counter.
#[tactic(auto, unfolding(definitions::specs::Evaluation::child))]
pub fn step<L: Ledger>(
    share: &Share,
    side: Side,
    node: &Node,
    level: u16,
    bit: bool,
    steps: &mut Steps<L>,
) -> Node
    requires first { 1 ≤ level }
    requires last { level ≤ length share.now.levels }
    ensures value { result ≡ child (level_word share.now level) side node.now bit }
    ensures cost { steps.new ≡ steps.old + 1 }
{
    let word = share.levels.as_slice()[usize::from(level - 1)];
    let children = extend(&node.seed, steps);
    let (kept_seed, kept_bit, correction_bit) = if bit {
        (children.right, children.bit_right, word.right)
    } else {
        (children.left, children.bit_left, word.left)
    };
    let (seed, set) = if node.bit {
        (xor(&kept_seed, &word.seed), kept_bit ^ correction_bit)
    } else {
        (kept_seed, kept_bit)
    };
    let converted = convert(&seed);
    Node {
        seed: converted.next,
        bit: set,
        d: child_value(side, set, converted.u, word.u),
        e: child_value(side, set, converted.v, word.v),
    }
}

/// A side's node at a prefix that is not longer than the share's levels, by as many steps as the prefix has bits.
pub fn eval<L: Ledger>(share: &Share, side: Side, prefix: &Prefix, steps: &mut Steps<L>) -> Node
    requires bits { length prefix.now ≤ length share.now.levels }
    ensures value { result ≡ node_of share.now side prefix.now }
    ensures cost { steps.new ≡ steps.old + length prefix.now }
{
    let mut node = root(share, side);
    for place in 0..prefix.len() {
        node = step(share, side, &node, place + 1, prefix.bit(place), steps);
    }
    node
}

/// The node at a prefix, with a counter of the caller's blank.
fn eval_on<L: Ledger>(share: &Share, side: Side, prefix: &Prefix, blank: Blank) -> Node
    requires bits { length prefix.now ≤ length share.now.levels }
    requires name { blank.name ≡ L.name }
    requires parts { blank.parts ≡ L.parts }
    requires some { 0 < blank.parts }
    ensures value { result ≡ node_of share.now side prefix.now }
{
    eval(share, side, prefix, &mut Steps::<L>::open(blank))
}

/// A side's node at a prefix that is not longer than the share's levels, for a caller that counts no steps.
pub fn eval_uncounted(share: &Share, side: Side, prefix: &Prefix) -> Node
    requires bits { length prefix.now ≤ length share.now.levels }
    ensures value { result ≡ node_of share.now side prefix.now }
{
    eval_on::<Brand>(share, side, prefix, Blank::new(1))
}
