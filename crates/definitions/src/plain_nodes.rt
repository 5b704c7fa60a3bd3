//! A side's node at a prefix, computed from the root by the four rules of evaluation.
//! It is the yardstick of the faster body in `idpf_eval`.

ghost use Rattle.std.specs.Prelude.{◌≡◌, ◌≤◌, length};
ghost use Rattle.definitions.specs.Evaluation.{child, child_value, descend};

use crate::Side;
use crate::plain_field::{add, neg, reduced};
use crate::plain_words::{number, part, word, xor};
use std::marker::Model;

/// The corrections of one level, in plain numbers.
#[derive(Clone, Copy, Debug, PartialEq, Eq)]
pub struct PlainWord {
    /// The seed word.
    pub seed: [u8; 32],
    /// The left child's bit word.
    pub left: bool,
    /// The right child's bit word.
    pub right: bool,
    /// The first element of the value word.
    pub u: u64,
    /// The second element of the value word.
    pub v: u64,
}

impl Model for PlainWord {
    ghost use Rattle.definitions.specs.Evaluation.{LevelWord};

    ghost Value = { LevelWord };

    ghost view = { λ w. record { seed = w.seed; left = w.left; right = w.right; u = w.u; v = w.v; a = 0; b = 0 } };

    ghost inverse = { λ w. record { seed = w.seed; left = w.left; right = w.right; u = w.u; v = w.v } };
}

/// A side's state and value at a prefix, in plain numbers.
#[derive(Clone, Copy, Debug, PartialEq, Eq)]
pub struct PlainNode {
    /// The seed.
    pub seed: [u8; 32],
    /// The bit.
    pub bit: bool,
    /// The first element of the value.
    pub d: u64,
    /// The second element of the value.
    pub e: u64,
}

impl Model for PlainNode {
    ghost use Rattle.definitions.specs.Evaluation.{Node};

    ghost Value = { Node };

    ghost view = { λ n. record { seed = n.seed; bit = n.bit; d = n.d; e = n.e } };

    ghost inverse = { λ n. record { seed = n.seed; bit = n.bit; d = n.d; e = n.e } };
}

/// A side's element at a child.
fn value(side: Side, bit: bool, own: u128, correction: u64) -> u64
    ensures value { result ≡ child_value side bit own correction }
{
    let own = reduced(own);
    let corrected = if bit { add(own, correction) } else { own };
    match side {
        Side::Zero => corrected,
        Side::One => neg(corrected),
    }
}

/// The child of a node along a bit.
#[tactic(auto, unfolding(crate::specs::Evaluation::child))]
pub fn child(word_of_level: &PlainWord, side: Side, node: &PlainNode, bit: bool) -> PlainNode
    ensures value { result ≡ child word_of_level.now side node.now bit }
{
    let bits = word(&node.seed, 0, 16);
    let (kept_seed, kept_bit, correction) = if bit {
        (
            part(&node.seed, 0, 8),
            bits / 2 % 2 == 1,
            word_of_level.right,
        )
    } else {
        (part(&node.seed, 0, 0), bits % 2 == 1, word_of_level.left)
    };
    let (seed, set) = if node.bit {
        (xor(&kept_seed, &word_of_level.seed), kept_bit ^ correction)
    } else {
        (kept_seed, kept_bit)
    };
    PlainNode {
        seed: part(&seed, 1, 0),
        bit: set,
        d: value(side, set, number(&seed, 1, 8), word_of_level.u),
        e: value(side, set, number(&seed, 1, 12), word_of_level.v),
    }
}

/// The node that the bits lead to from a node, each by the next level's word.
pub fn descend(words: &[PlainWord], side: Side, node: &PlainNode, bits: &[bool]) -> PlainNode
    requires bits { length bits.now ≤ length words.now }
    ensures value { result ≡ descend words.now side node.now bits.now }
{
    let mut reached = *node;
    for (place, bit) in bits.iter().enumerate() {
        reached = child(&words[place], side, &reached, *bit);
    }
    reached
}
