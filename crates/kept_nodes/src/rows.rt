//! Makes the nodes of reports, each report's from those that were kept of it before, or else by one way down.
//! The nodes of each report stand behind those of the one before.

ghost use Rattle.std.specs.Prelude.{◌≡◌, ◌≤◌, ◌<◌, ◌++◌, None, length, map, IfOk};
ghost use Rattle.std.specs.List.{All};
ghost use Rattle.definitions.specs.Evaluation.{node as node_of};
ghost use Rattle.idpf_lanes.specs.Stands.{AreLong, AreFound};
ghost use Rattle.kept_nodes.specs.Kept.{share_at, nodes_of};
ghost use Rattle.kept_nodes.specs.Lines.{IsLine};

use crate::kept_nodes::KeptNodes;
use crate::line::Line;
use field64::Fe;
use idpf_eval::{Node, Share};
use idpf_lanes::{NodeBuffers, fronts_of};
use prefix_bits::{Prefix, Side};
use seed_expand::Seed;
use std::alloc::{AllocError, Global};

/// Any node.
fn any_node() -> Node {
    Node {
        seed: Seed([0; 32]),
        bit: false,
        d: Fe::zero(),
        e: Fe::zero(),
    }
}

/// Of no prefix a node is found.
fn none_found(share: &Share, side: Side, prefixes: &[Prefix], found: &mut [Option<Node>])
    ensures same { length found.new ≡ length found.old }
    ensures found { AreFound share.now side prefixes.now found.new }
{
    for k in 0..found.len() {
        found[k] = None;
    }
}

/// The nodes of one report at the prefixes.
fn row_of(
    before: &KeptNodes<'_>,
    side: Side,
    share: &Share,
    report: u32,
    line: &Line<'_>,
    found: &mut [Option<Node>],
    wanted: &mut [Prefix],
    parents: &mut [Node],
    buffers: &mut NodeBuffers,
    into: &mut [Node],
)
    requires line { IsLine line.now }
    requires side { side ≡ before.now.side }
    requires own { share.now ≡ share_at before.now.shares report }
    requires level { line.now.level ≤ length share.now.levels }
    requires found { length found.old ≡ length line.now.fronts.now }
    requires wanted { length wanted.old ≡ length line.now.fronts.now }
    requires parents { length parents.old ≡ length line.now.fronts.now }
    requires into { length into.old ≡ length line.now.prefixes.now }
    requires room { length line.now.prefixes.now ≤ buffers.old }
    ensures nodes { into.new ≡ map (node_of share.now side) line.now.prefixes.now }
    ensures same { (length found.new ≡ length found.old) × (length wanted.new ≡ length found.old) × (length parents.new ≡ length found.old) }
    ensures into { length into.new ≡ length into.old }
    ensures room { buffers.new ≡ buffers.old }
{
    none_found(share, side, line.fronts, found);
    before.put_kept(report, line.fronts, found);
    buffers.nodes_found(
        share,
        side,
        line.level - 1,
        line.fronts,
        found,
        wanted,
        parents,
    );
    buffers.children_of(
        share,
        side,
        line.level,
        line.prefixes,
        line.fronts,
        line.places,
        parents,
        into,
    );
}

/// The nodes of reports at the prefixes, behind those that are there.
fn add_rows(
    before: &KeptNodes<'_>,
    side: Side,
    shares: &[Share],
    live: &[u32],
    line: &Line<'_>,
    found: &mut [Option<Node>],
    wanted: &mut [Prefix],
    parents: &mut [Node],
    buffers: &mut NodeBuffers,
    row: &mut [Node],
    nodes: &mut Vec<Node>,
) -> Result<(), AllocError>
    requires line { IsLine line.now }
    requires side { side ≡ before.now.side }
    requires shares { shares.now ≡ before.now.shares }
    requires live { All (λ i. i < length shares.now) live.now }
    requires levels { All (λ s. line.now.level ≤ length s.levels) shares.now }
    requires found { length found.old ≡ length line.now.fronts.now }
    requires wanted { length wanted.old ≡ length line.now.fronts.now }
    requires parents { length parents.old ≡ length line.now.fronts.now }
    requires row { length row.old ≡ length line.now.prefixes.now }
    requires room { length line.now.prefixes.now ≤ buffers.old }
    ensures { IfOk result (λ _. nodes.new.items ≡ nodes.old.items ++ nodes_of shares.now side line.now.prefixes.now live.now) }
{
    for place in live {
        let share = &shares[*place as usize];
        row_of(
            before, side, share, *place, line, found, wanted, parents, buffers, row,
        );
        nodes.extend_from_slice(row)?;
    }
    Ok(())
}

/// The nodes of reports at the prefixes, with room for the fronts of the prefixes, and for the place of each prefix's own.
fn rows_with(
    alloc: Global,
    before: &KeptNodes<'_>,
    level: u16,
    prefixes: &[Prefix],
    live: &[u32],
    fronts: &mut [Prefix],
    places: &mut [usize],
) -> Result<Vec<Node>, AllocError>
    requires first { 1 ≤ level }
    requires bits { AreLong level prefixes.now }
    requires live { All (λ i. i < length before.now.shares) live.now }
    requires levels { All (λ s. level ≤ length s.levels) before.now.shares }
    requires fronts { length fronts.old ≡ length prefixes.now }
    requires places { length places.old ≡ length prefixes.now }
    ensures { IfOk result (λ nodes. nodes.items ≡ nodes_of before.now.shares before.now.side prefixes.now live.now) }
{
    let count = prefixes.len();
    let made = fronts_of(level, prefixes, fronts, places);
    let mut found = vec![in alloc; None; made]?;
    let mut wanted = vec![in alloc; Prefix::empty(); made]?;
    let mut parents = vec![in alloc; any_node(); made]?;
    let mut row = vec![in alloc; any_node(); count]?;
    let mut buffers = NodeBuffers::new(alloc, count)?;
    let mut nodes = Vec::with_capacity(alloc, live.len().saturating_mul(count))?;
    let line = Line {
        level,
        prefixes,
        fronts: &fronts[..made],
        places,
    };
    add_rows(
        before,
        before.side(),
        before.shares(),
        live,
        &line,
        &mut found,
        &mut wanted,
        &mut parents,
        &mut buffers,
        &mut row,
        &mut nodes,
    )?;
    Ok(nodes)
}

/// The nodes of the reports at these places of a side's shares, report by report, at prefixes of that many bits. Each is one step
/// from the node of its front, which is one of those that were kept before, or else is reached by one way down for all fronts of the
/// report. `AllocError` is want of memory.
pub(crate) fn rows_of(
    alloc: Global,
    before: &KeptNodes<'_>,
    level: u16,
    prefixes: &[Prefix],
    live: &[u32],
) -> Result<Vec<Node>, AllocError>
    requires first { 1 ≤ level }
    requires bits { AreLong level prefixes.now }
    requires live { All (λ i. i < length before.now.shares) live.now }
    requires levels { All (λ s. level ≤ length s.levels) before.now.shares }
    ensures { IfOk result (λ nodes. nodes.items ≡ nodes_of before.now.shares before.now.side prefixes.now live.now) }
{
    let mut fronts = vec![in alloc; Prefix::empty(); prefixes.len()]?;
    let mut places = vec![in alloc; 0; prefixes.len()]?;
    rows_with(
        alloc,
        before,
        level,
        prefixes,
        live,
        &mut fronts,
        &mut places,
    )
}
