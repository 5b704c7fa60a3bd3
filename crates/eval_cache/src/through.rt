//! A node by one step from its parent's node, where that is at hand.
//! Without one it is the evaluation from the root.

ghost use Rattle.std.specs.Prelude.{◌≡◌, ◌+◌, ◌-◌, ◌<◌, ◌≤◌, length, take, IfSome, is_some, if◌then◌else◌};
ghost use Rattle.definitions.specs.Evaluation.{node as node_of};

use idpf_eval::{Node, Share, eval, step};
use prefix_bits::{Prefix, Side};
use seed_expand::Steps;
use std::sync::ledger::Ledger;

/// A side's node at a prefix of at least one bit that is not longer than the share's levels. From its parent's node,
/// where that is given, it is one step of the counter, and else as many as the prefix has bits. It takes no memory.
pub fn node_through<L: Ledger>(
    share: &Share,
    side: Side,
    parent: Option<&Node>,
    prefix: &Prefix,
    steps: &mut Steps<L>,
) -> Node
    requires some { 0 < length prefix.now }
    requires bits { length prefix.now ≤ length share.now.levels }
    requires parent { IfSome parent (λ p. p.now ≡ node_of share.now side (take (length prefix.now - 1) prefix.now)) }
    ensures value { result ≡ node_of share.now side prefix.now }
    ensures cost { steps.new ≡ steps.old + (if is_some parent.entry then 1 else length prefix.now) }
{
    match parent {
        Some(parent) => {
            let last = prefix.len() - 1;
            step(share, side, parent, last + 1, prefix.bit(last), steps)
        }
        None => eval(share, side, prefix, steps),
    }
}
