//! The way down from the root for all prefixes of a list, over slices of the buffers' own.

ghost use Rattle.std.specs.Prelude.{◌≡◌, ℕ, ◌≤◌, ◌<◌, length, map, slice_index};
ghost use Rattle.definitions.specs.Evaluation.{node as node_of};
ghost use Rattle.idpf_lanes.specs.Stands.{AreLong};

use crate::depths::{go_down, place};
use idpf_eval::{Node, Share, root};
use node_growth::{SeedBuffers, Step};
use prefix_bits::{Prefix, Side};

/// All at the first place.
fn stand_first(places: &mut [usize])
    ensures same { length places.new ≡ length places.old }
    ensures first { (k : ℕ) → k < length places.new → slice_index places.new k ≡ 0 }
{
    for k in 0..places.len() {
        places[k] = 0;
    }
}

/// The nodes of the prefixes, with a place for each.
fn nodes_over(
    share: &Share,
    side: Side,
    level: u16,
    prefixes: &[Prefix],
    into: &mut [Node],
    nodes: &mut [Node],
    next: &mut [Node],
    steps: &mut [Step],
    places: &mut [usize],
    seeds: &mut SeedBuffers,
)
    requires level { level ≤ length share.now.levels }
    requires bits { AreLong level prefixes.now }
    requires same { length into.old ≡ length prefixes.now }
    requires places { length places.old ≡ length prefixes.now }
    requires some { 0 < length nodes.old }
    requires room { length prefixes.now ≤ length nodes.old }
    requires next { length next.old ≡ length nodes.old }
    requires steps { length steps.old ≡ length nodes.old }
    requires seeds { seeds.old ≡ length nodes.old }
    ensures nodes { into.new ≡ map (node_of share.now side) prefixes.now }
    ensures seeds { seeds.new ≡ seeds.old }
{
    nodes[0] = root(share, side);
    stand_first(places);
    let mut count = 1;
    for depth in 0..level {
        count = go_down(
            share, side, depth, prefixes, count, nodes, next, steps, places, seeds,
        );
    }
    place(&nodes[..count], places, into);
}

/// The nodes of the prefixes, over slices of one length.
pub(crate) fn nodes_within(
    share: &Share,
    side: Side,
    level: u16,
    prefixes: &[Prefix],
    into: &mut [Node],
    nodes: &mut [Node],
    next: &mut [Node],
    steps: &mut [Step],
    places: &mut [usize],
    seeds: &mut SeedBuffers,
)
    requires level { level ≤ length share.now.levels }
    requires bits { AreLong level prefixes.now }
    requires same { length into.old ≡ length prefixes.now }
    requires some { 0 < length nodes.old }
    requires room { length prefixes.now ≤ length nodes.old }
    requires next { length next.old ≡ length nodes.old }
    requires steps { length steps.old ≡ length nodes.old }
    requires places { length places.old ≡ length nodes.old }
    requires seeds { seeds.old ≡ length nodes.old }
    ensures nodes { into.new ≡ map (node_of share.now side) prefixes.now }
    ensures seeds { seeds.new ≡ seeds.old }
{
    nodes_over(
        share,
        side,
        level,
        prefixes,
        into,
        nodes,
        next,
        steps,
        &mut places[..prefixes.len()],
        seeds,
    );
}
