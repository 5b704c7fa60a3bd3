//! Nodes of one side's shares that are kept, in parts that were made at once.
//! A look-up gives the node that the evaluation from the root gives.

ghost use Rattle.std.specs.Prelude.{◌≡◌, length, IfSome};
ghost use Rattle.idpf_lanes.specs.Stands.{AreFound};
ghost use Rattle.kept_nodes.specs.Kept.{share_at, node_at};
ghost use Rattle.kept_nodes.specs.Parts.{AreParts};

use crate::part::KeptPart;
use idpf_eval::{Node, Share};
use prefix_bits::{Prefix, Side};
use std::alloc::Global;
use std::marker::Model;

/// Nodes of reports of one side, each at the same prefixes. Those of a report are in the part whose number is the report's place
/// modulo the number of parts. Contracts see the side and its shares.
#[derive(Drop)]
pub struct KeptNodes<'a> {
    shares: &'a [Share],
    side: Side,
    parts: Vec<KeptPart<'a>>,
}

impl<'a> Model for KeptNodes<'a> {
    ghost use Rattle.kept_nodes.specs.Kept.{KeptSeen};
    ghost use Rattle.kept_nodes.specs.Parts.{AreParts};

    ghost Value = { KeptSeen };

    ghost view = { λ k. record { shares = k.shares.now; side = k.side } };

    ghost invariant = { λ k. AreParts k.shares.now k.side k.parts.items };
}

impl<'a> KeptNodes<'a> {
    /// Of this side and these shares, but of no report. It takes no memory.
    pub fn none(alloc: Global, shares: &'a [Share], side: Side) -> KeptNodes<'a>
        ensures { result ≡ record { shares = shares.entry.now; side = side } }
    {
        KeptNodes {
            shares,
            side,
            parts: Vec::new(alloc),
        }
    }

    /// Of these parts.
    pub(crate) fn of(shares: &'a [Share], side: Side, parts: Vec<KeptPart<'a>>) -> KeptNodes<'a>
        requires parts { AreParts shares.now side parts.items }
        ensures { result ≡ record { shares = shares.entry.now; side = side } }
    {
        KeptNodes {
            shares,
            side,
            parts,
        }
    }

    /// The side whose nodes they are.
    pub fn side(&self) -> Side
        ensures { result ≡ self.now.side }
    {
        self.side
    }

    /// The side's shares.
    pub fn shares(&self) -> &'a [Share]
        ensures { result.now ≡ self.now.shares }
    {
        self.shares
    }

    /// The part in which a report's nodes are, where there is one.
    fn part_of(&self, report: u32) -> Option<&KeptPart<'a>>
        ensures side { IfSome result (λ part. part.now.side ≡ self.now.side) }
        ensures shares { IfSome result (λ part. part.now.shares ≡ self.now.shares) }
    {
        let count = self.parts.len();
        if count == 0 {
            return None;
        }
        Some(&self.parts[report as usize % count])
    }

    /// The node of a report at a prefix, where it is kept. It takes no memory.
    pub fn node(&self, report: u32, prefix: &Prefix) -> Option<Node>
        ensures { IfSome result (λ n. n ≡ node_at self.now.shares self.now.side report prefix.now) }
    {
        let part = self.part_of(report)?;
        part.node(report, prefix)
    }

    /// Puts the nodes of a report that are kept at those places of `found` that have none. It takes no memory.
    pub fn put_kept(&self, report: u32, prefixes: &[Prefix], found: &mut [Option<Node>])
        requires same { length found.old ≡ length prefixes.now }
        requires found { AreFound (share_at self.now.shares report) self.now.side prefixes.now found.old }
        ensures same { length found.new ≡ length prefixes.now }
        ensures found { AreFound (share_at self.now.shares report) self.now.side prefixes.now found.new }
    {
        let Some(part) = self.part_of(report) else {
            return;
        };
        part.put_kept(report, prefixes, found);
    }
}
