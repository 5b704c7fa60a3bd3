//! The nodes of prefixes from those of their fronts, over slices of the buffers' own.

ghost use Rattle.std.specs.Prelude.{◌≡◌, ◌+◌, ◌-◌, ◌≤◌, ◌<◌, length, map};
ghost use Rattle.definitions.specs.Evaluation.{node as node_of};
ghost use Rattle.idpf_lanes.specs.Stands.{AreLong, AreFronts};

use crate::depths::{next_nodes, place};
use idpf_eval::{Node, Share};
use node_growth::{SeedBuffers, Step};
use prefix_bits::{Prefix, Side};

/// The nodes of prefixes from those of their fronts, which are one bit shorter, over slices of the caller's.
fn children_over(
    share: &Share,
    side: Side,
    depth: u16,
    prefixes: &[Prefix],
    fronts: &[Prefix],
    places: &[usize],
    parents: &[Node],
    into: &mut [Node],
    next: &mut [Node],
    steps: &mut [Step],
    own: &mut [usize],
    seeds: &mut SeedBuffers,
)
    requires level { depth < length share.now.levels }
    requires bits { AreLong (depth + 1) prefixes.now }
    requires fronts { AreFronts depth prefixes.now fronts.now places.now }
    requires parents { parents.now ≡ map (node_of share.now side) fronts.now }
    requires places { length places.now ≡ length prefixes.now }
    requires own { length own.old ≡ length prefixes.now }
    requires same { length into.old ≡ length prefixes.now }
    requires room { length prefixes.now ≤ length next.old }
    requires steps { length steps.old ≡ length next.old }
    requires less { length fronts.now ≤ length next.old }
    requires seeds { seeds.old ≡ length next.old }
    ensures nodes { into.new ≡ map (node_of share.now side) prefixes.now }
    ensures seeds { seeds.new ≡ seeds.old }
{
    own.copy_from_slice(places);
    let made = next_nodes(
        share, side, depth, prefixes, parents, next, steps, own, seeds,
    );
    place(&next[..made], own, into);
}

/// The same over slices of one length, one level after the fronts.
pub(crate) fn children_within(
    share: &Share,
    side: Side,
    level: u16,
    prefixes: &[Prefix],
    fronts: &[Prefix],
    places: &[usize],
    parents: &[Node],
    into: &mut [Node],
    next: &mut [Node],
    steps: &mut [Step],
    own: &mut [usize],
    seeds: &mut SeedBuffers,
)
    requires first { 1 ≤ level }
    requires level { level ≤ length share.now.levels }
    requires bits { AreLong level prefixes.now }
    requires fronts { AreFronts (level - 1) prefixes.now fronts.now places.now }
    requires parents { parents.now ≡ map (node_of share.now side) fronts.now }
    requires places { length places.now ≡ length prefixes.now }
    requires same { length into.old ≡ length prefixes.now }
    requires room { length prefixes.now ≤ length next.old }
    requires less { length fronts.now ≤ length next.old }
    requires steps { length steps.old ≡ length next.old }
    requires own { length own.old ≡ length next.old }
    requires seeds { seeds.old ≡ length next.old }
    ensures nodes { into.new ≡ map (node_of share.now side) prefixes.now }
    ensures seeds { seeds.new ≡ seeds.old }
{
    children_over(
        share,
        side,
        level - 1,
        prefixes,
        fronts,
        places,
        parents,
        into,
        next,
        steps,
        &mut own[..prefixes.len()],
        seeds,
    );
}
