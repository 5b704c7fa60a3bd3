//! The three ways to the nodes of a level, each over all shares, with the nanoseconds that it took and a sum over what it made.
//! Room is made before the clock is read.

ghost use Rattle.std.specs.Prelude.{◌≡◌, ◌-◌, ◌≤◌, true, length};
ghost use Rattle.idpf_lanes.specs.Stands.{AreLong, AreFronts};

use field64::Fe;
use idpf_eval::{Node, Share, eval_uncounted};
use idpf_lanes::{NodeBuffers, fronts_of};
use prefix_bits::{Prefix, Side};
use seed_expand::Seed;
use std::io;
use std::time::Instant;

/// What a level took.
#[derive(Clone, Copy, Debug)]
pub struct Times {
    /// How many nodes each way made.
    pub nodes: u128,
    /// Whether all ways made the same.
    pub equal: bool,
    /// Nanoseconds of the evaluation of each node from the root.
    pub root: u128,
    /// Nanoseconds of one way down a share.
    pub down: u128,
    /// Nanoseconds from the fronts' nodes.
    pub children: u128,
}

/// The nanoseconds that one way took, and a sum over the nodes that it made.
type Taken = (u128, u64);

/// A node for the room that is written over.
fn blank() -> Node {
    Node {
        seed: Seed([0; 32]),
        bit: false,
        d: Fe::zero(),
        e: Fe::zero(),
    }
}

/// A sum over all nodes so far, by their places.
fn sum_of(nodes: &[Node], before: u64) -> u64 {
    let mut sum = before;
    for node in nodes {
        sum = sum
            .wrapping_mul(31)
            .wrapping_add(node.d.number())
            .wrapping_add(u64::from(node.bit))
            .wrapping_add(node.e.number());
    }
    sum
}

/// Whether a share has so many levels.
fn reaches(share: &Share, level: u16) -> bool
    ensures { result ≡ true → level ≤ length share.now.levels }
{
    usize::from(level) <= share.levels.len()
}

/// Evaluates each prefix from the root.
fn one_by_one(share: &Share, level: u16, prefixes: &[Prefix], into: &mut [Node])
    requires level { level ≤ length share.now.levels }
    requires bits { AreLong level prefixes.now }
    requires same { length into.old ≡ length prefixes.now }
    ensures same { length into.new ≡ length prefixes.now }
{
    for k in 0..prefixes.len() {
        let prefix = &prefixes[k];
        into[k] = eval_uncounted(share, Side::Zero, prefix);
    }
}

/// All shares, each node from the root.
fn root_all(shares: &[Share], level: u16, prefixes: &[Prefix], into: &mut [Node]) -> u64
    requires bits { AreLong level prefixes.now }
    requires same { length into.old ≡ length prefixes.now }
{
    let mut sum = 0;
    for share in shares {
        if reaches(share, level) {
            one_by_one(share, level, prefixes, into);
            sum = sum_of(into, sum);
        }
    }
    sum
}

fn time_root(
    rt: &HostRuntime,
    shares: &[Share],
    level: u16,
    prefixes: &[Prefix],
) -> io::Result<Taken>
    requires bits { AreLong level prefixes.now }
{
    let mut into = vec![in rt.alloc(); blank(); prefixes.len()]?;
    let begun = Instant::now(rt)?;
    let sum = root_all(shares, level, prefixes, &mut into);
    Ok((begun.elapsed(rt)?.as_nanos(), sum))
}

/// All shares, by one way down each.
fn down_all(
    shares: &[Share],
    level: u16,
    prefixes: &[Prefix],
    into: &mut [Node],
    buffers: &mut NodeBuffers,
) -> u64
    requires bits { AreLong level prefixes.now }
    requires same { length into.old ≡ length prefixes.now }
    requires room { length prefixes.now ≤ buffers.old }
{
    let mut sum = 0;
    for share in shares {
        if reaches(share, level) {
            buffers.nodes_at(share, Side::Zero, level, prefixes, into);
            sum = sum_of(into, sum);
        }
    }
    sum
}

fn time_down(
    rt: &HostRuntime,
    shares: &[Share],
    level: u16,
    prefixes: &[Prefix],
) -> io::Result<Taken>
    requires bits { AreLong level prefixes.now }
{
    let mut buffers = NodeBuffers::new(rt.alloc(), prefixes.len())?;
    let mut into = vec![in rt.alloc(); blank(); prefixes.len()]?;
    let begun = Instant::now(rt)?;
    let sum = down_all(shares, level, prefixes, &mut into, &mut buffers);
    Ok((begun.elapsed(rt)?.as_nanos(), sum))
}

/// All shares, from the fronts' nodes: these are made before the clock is read.
fn children_all(
    rt: &HostRuntime,
    shares: &[Share],
    level: u16,
    prefixes: &[Prefix],
    fronts: &[Prefix],
    places: &[usize],
    parents: &mut [Node],
    into: &mut [Node],
    buffers: &mut NodeBuffers,
) -> io::Result<Taken>
    requires first { 1 ≤ level }
    requires bits { AreLong level prefixes.now }
    requires fronts { AreFronts (level - 1) prefixes.now fronts.now places.now }
    requires places { length places.now ≡ length prefixes.now }
    requires parents { length parents.old ≡ length fronts.now }
    requires same { length into.old ≡ length prefixes.now }
    requires room { length prefixes.now ≤ buffers.old }
    requires less { length fronts.now ≤ buffers.old }
{
    let mut sum = 0;
    let mut time = 0u128;
    for share in shares {
        if reaches(share, level) {
            buffers.nodes_at(share, Side::Zero, level - 1, fronts, parents);
            let begun = Instant::now(rt)?;
            buffers.children_of(
                share,
                Side::Zero,
                level,
                prefixes,
                fronts,
                places,
                parents,
                into,
            );
            time = time.saturating_add(begun.elapsed(rt)?.as_nanos());
            sum = sum_of(into, sum);
        }
    }
    Ok((time, sum))
}

/// The fronts first, in room for as many as prefixes.
fn children_in(
    rt: &HostRuntime,
    shares: &[Share],
    level: u16,
    prefixes: &[Prefix],
    fronts: &mut [Prefix],
    places: &mut [usize],
    parents: &mut [Node],
    into: &mut [Node],
    buffers: &mut NodeBuffers,
) -> io::Result<Taken>
    requires first { 1 ≤ level }
    requires bits { AreLong level prefixes.now }
    requires fronts { length fronts.old ≡ length prefixes.now }
    requires places { length places.old ≡ length prefixes.now }
    requires parents { length parents.old ≡ length prefixes.now }
    requires same { length into.old ≡ length prefixes.now }
    requires room { length prefixes.now ≤ buffers.old }
{
    let made = fronts_of(level, prefixes, fronts, places);
    children_all(
        rt,
        shares,
        level,
        prefixes,
        &fronts[..made],
        places,
        &mut parents[..made],
        into,
        buffers,
    )
}

fn time_children(
    rt: &HostRuntime,
    shares: &[Share],
    level: u16,
    prefixes: &[Prefix],
) -> io::Result<Taken>
    requires first { 1 ≤ level }
    requires bits { AreLong level prefixes.now }
{
    let mut buffers = NodeBuffers::new(rt.alloc(), prefixes.len())?;
    let mut fronts = vec![in rt.alloc(); Prefix::empty(); prefixes.len()]?;
    let mut places = vec![in rt.alloc(); 0; prefixes.len()]?;
    let mut parents = vec![in rt.alloc(); blank(); prefixes.len()]?;
    let mut into = vec![in rt.alloc(); blank(); prefixes.len()]?;
    children_in(
        rt,
        shares,
        level,
        prefixes,
        &mut fronts,
        &mut places,
        &mut parents,
        &mut into,
        &mut buffers,
    )
}

/// The times of one level over all shares that have it, one way after the other.
pub fn time_level(
    rt: &HostRuntime,
    shares: &[Share],
    level: u16,
    prefixes: &[Prefix],
) -> io::Result<Times>
    requires first { 1 ≤ level }
    requires bits { AreLong level prefixes.now }
{
    let (root, sum) = time_root(rt, shares, level, prefixes)?;
    let (down, same) = time_down(rt, shares, level, prefixes)?;
    let (children, again) = time_children(rt, shares, level, prefixes)?;
    Ok(Times {
        nodes: (shares.len() as u128).saturating_mul(prefixes.len() as u128),
        equal: sum == same && sum == again,
        root,
        down,
        children,
    })
}
