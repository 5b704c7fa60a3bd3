//! One depth further down for all prefixes of a list: the nodes of their fronts that are one bit longer.

ghost use Rattle.std.specs.Prelude.{◌≡◌, ◌+◌, ◌≤◌, ◌<◌, length, map, take, slice_index_or};
ghost use Rattle.node_growth.specs.Steps.{no_node};
ghost use Rattle.node_growth.specs.Plans.{AreLonger, AreBelow};
ghost use Rattle.idpf_lanes.specs.Stands.{Stand};

use idpf_eval::{Node, Share};
use node_growth::{SeedBuffers, Step, plan_steps};
use prefix_bits::{Prefix, Side};

/// The nodes of the prefixes' fronts that are one bit longer, into the first places. How many there are is the result.
pub(crate) fn next_nodes(
    share: &Share,
    side: Side,
    depth: u16,
    prefixes: &[Prefix],
    nodes: &[Node],
    next: &mut [Node],
    steps: &mut [Step],
    places: &mut [usize],
    seeds: &mut SeedBuffers,
) -> usize
    requires level { depth < length share.now.levels }
    requires longer { AreLonger depth prefixes.now }
    requires stand { Stand share.now side depth prefixes.now nodes.now places.old }
    requires places { length places.old ≡ length prefixes.now }
    requires room { length prefixes.now ≤ length next.old }
    requires steps { length steps.old ≡ length next.old }
    requires parents { length nodes.now ≤ seeds.old }
    requires children { length prefixes.now ≤ seeds.old }
    ensures stand { Stand share.now side (depth + 1) prefixes.now (take result next.new) places.new }
    ensures count { result ≤ length prefixes.now }
    ensures next { length next.new ≡ length next.old }
    ensures steps { length steps.new ≡ length steps.old }
    ensures places { length places.new ≡ length prefixes.now }
    ensures seeds { seeds.new ≡ seeds.old }
{
    let made = plan_steps(prefixes, depth, nodes.len(), places, steps);
    let word = &share.levels.as_slice()[usize::from(depth)];
    seeds.grow(word, side, nodes, &steps[..made], next);
    made
}

/// One depth further down, with the nodes in place of those that were there.
pub(crate) fn go_down(
    share: &Share,
    side: Side,
    depth: u16,
    prefixes: &[Prefix],
    count: usize,
    nodes: &mut [Node],
    next: &mut [Node],
    steps: &mut [Step],
    places: &mut [usize],
    seeds: &mut SeedBuffers,
) -> usize
    requires level { depth < length share.now.levels }
    requires longer { AreLonger depth prefixes.now }
    requires stand { Stand share.now side depth prefixes.now (take count nodes.old) places.old }
    requires count { count ≤ length nodes.old }
    requires places { length places.old ≡ length prefixes.now }
    requires room { length prefixes.now ≤ length nodes.old }
    requires next { length next.old ≡ length nodes.old }
    requires steps { length steps.old ≡ length nodes.old }
    requires seeds { seeds.old ≡ length nodes.old }
    ensures stand { Stand share.now side (depth + 1) prefixes.now (take result nodes.new) places.new }
    ensures count { result ≤ length nodes.new }
    ensures nodes { length nodes.new ≡ length nodes.old }
    ensures places { length places.new ≡ length prefixes.now }
    ensures next { length next.new ≡ length nodes.old }
    ensures steps { length steps.new ≡ length nodes.old }
    ensures seeds { seeds.new ≡ length nodes.old }
{
    let made = next_nodes(
        share,
        side,
        depth,
        prefixes,
        &nodes[..count],
        next,
        steps,
        places,
        seeds,
    );
    nodes[..made].copy_from_slice(&next[..made]);
    made
}

/// The nodes that stand at the places of the prefixes.
pub(crate) fn place(nodes: &[Node], places: &[usize], into: &mut [Node])
    requires same { length into.old ≡ length places.now }
    requires below { AreBelow (length nodes.now) places.now }
    ensures same { length into.new ≡ length into.old }
    ensures placed { into.new ≡ map (λ p. slice_index_or nodes.now p no_node) places.now }
{
    for k in 0..places.len() {
        into[k] = nodes[places[k]];
    }
}
