//! Room for the nodes of many prefixes of a share, and the three ways to make them.

ghost use Rattle.std.specs.Prelude.{◌≡◌, ◌+◌, ◌-◌, ◌≤◌, ◌<◌, length, map, IfOk};
ghost use Rattle.definitions.specs.Evaluation.{node as node_of};
ghost use Rattle.idpf_lanes.specs.Stands.{AreLong, AreFronts, AreFound};

use crate::found_nodes::{first_missing, put_found, want};
use crate::next_depth::children_within;
use crate::way_down::nodes_within;
use field64::Fe;
use idpf_eval::{Node, Share};
use node_growth::{SeedBuffers, Step};
use prefix_bits::{Prefix, Side};
use seed_expand::Seed;
use std::alloc::{AllocError, Global};
use std::marker::Model;

/// Room for the nodes of so many prefixes, seen as that number, at least 1.
#[derive(Debug, Drop)]
pub struct NodeBuffers {
    nodes: Vec<Node>,
    next: Vec<Node>,
    steps: Vec<Step>,
    places: Vec<usize>,
    seeds: SeedBuffers,
}

impl Model for NodeBuffers {
    ghost use Rattle.std.specs.Prelude.{ℕ, ◌≡◌, ◌<◌, vec_len};

    ghost Value = { ℕ };

    ghost view = { λ b. vec_len b.nodes };

    ghost invariant = { λ b. (0 < vec_len b.nodes) × (vec_len b.next ≡ vec_len b.nodes) × (vec_len b.steps ≡ vec_len b.nodes)
        × (vec_len b.places ≡ vec_len b.nodes) × (b.seeds ≡ vec_len b.nodes) };
}

impl NodeBuffers {
    /// Room for so many prefixes, and for 1 where that is 0. `AllocError` is want of memory.
    pub fn new(alloc: Global, most: usize) -> Result<NodeBuffers, AllocError>
        ensures room { IfOk result (λ b. most ≤ b) }
        ensures few { IfOk result (λ b. b ≤ most + 1) }
        ensures own { 0 < most → IfOk result (λ b. b ≡ most) }
    {
        let width = most.max(1);
        let node = Node {
            seed: Seed([0; 32]),
            bit: false,
            d: Fe::zero(),
            e: Fe::zero(),
        };
        let step = Step {
            from: 0,
            bit: false,
        };
        Ok(NodeBuffers {
            nodes: vec![in alloc; node; width]?,
            next: vec![in alloc; node; width]?,
            steps: vec![in alloc; step; width]?,
            places: vec![in alloc; 0; width]?,
            seeds: SeedBuffers::new(alloc, width)?,
        })
    }

    /// The nodes of prefixes of `level` bits, in the prefixes' order, by one way down from the root for all of them. The prefixes stand
    /// in any order and may repeat; where those that share a front stand together, each front is made once. It takes no memory.
    pub fn nodes_at(
        &mut self,
        share: &Share,
        side: Side,
        level: u16,
        prefixes: &[Prefix],
        into: &mut [Node],
    )
        requires level { level ≤ length share.now.levels }
        requires bits { AreLong level prefixes.now }
        requires same { length into.old ≡ length prefixes.now }
        requires room { length prefixes.now ≤ self.old }
        ensures nodes { into.new ≡ map (node_of share.now side) prefixes.now }
        ensures room { self.new ≡ self.old }
    {
        nodes_within(
            share,
            side,
            level,
            prefixes,
            into,
            &mut self.nodes,
            &mut self.next,
            &mut self.steps,
            &mut self.places,
            &mut self.seeds,
        );
    }

    /// The nodes of prefixes of `level` bits from the nodes of their fronts, in the prefixes' order. The fronts are one bit shorter and
    /// stand at `places`, as `fronts_of` gives them; each front's seed is expanded once. It takes no memory.
    pub fn children_of(
        &mut self,
        share: &Share,
        side: Side,
        level: u16,
        prefixes: &[Prefix],
        fronts: &[Prefix],
        places: &[usize],
        parents: &[Node],
        into: &mut [Node],
    )
        requires first { 1 ≤ level }
        requires level { level ≤ length share.now.levels }
        requires bits { AreLong level prefixes.now }
        requires fronts { AreFronts (level - 1) prefixes.now fronts.now places.now }
        requires parents { parents.now ≡ map (node_of share.now side) fronts.now }
        requires places { length places.now ≡ length prefixes.now }
        requires same { length into.old ≡ length prefixes.now }
        requires room { length prefixes.now ≤ self.old }
        requires less { length fronts.now ≤ self.old }
        ensures nodes { into.new ≡ map (node_of share.now side) prefixes.now }
        ensures room { self.new ≡ self.old }
    {
        children_within(
            share,
            side,
            level,
            prefixes,
            fronts,
            places,
            parents,
            into,
            &mut self.next,
            &mut self.steps,
            &mut self.places,
            &mut self.seeds,
        );
    }

    /// The nodes of prefixes of `level` bits, in the prefixes' order, of which some were found: the others are made by one way down for
    /// all of them, and where none is missing nothing is evaluated. `wanted` is room for as many prefixes; what it holds afterwards is
    /// of no use. It takes no memory.
    pub fn nodes_found(
        &mut self,
        share: &Share,
        side: Side,
        level: u16,
        prefixes: &[Prefix],
        found: &[Option<Node>],
        wanted: &mut [Prefix],
        into: &mut [Node],
    )
        requires level { level ≤ length share.now.levels }
        requires bits { AreLong level prefixes.now }
        requires same { length found.now ≡ length prefixes.now }
        requires found { AreFound share.now side prefixes.now found.now }
        requires wanted { length wanted.old ≡ length prefixes.now }
        requires into { length into.old ≡ length prefixes.now }
        requires room { length prefixes.now ≤ self.old }
        ensures nodes { into.new ≡ map (node_of share.now side) prefixes.now }
        ensures wanted { length wanted.new ≡ length prefixes.now }
        ensures room { self.new ≡ self.old }
    {
        let first = first_missing(found);
        if first < found.len() {
            want(prefixes, found, first, level, wanted);
            self.nodes_at(share, side, level, wanted, into);
        }
        put_found(share, side, prefixes, found, into);
    }
}
