//! Lists of prefixes of one share, empty, with repeats and not ascending: their nodes by one way down, from their fronts' nodes, and
//! beside found nodes with those missing at the front, in the middle and at the end.

ghost use Rattle.std.specs.Prelude.{◌≡◌, ◌-◌, ◌≤◌, length, IfOk, IsTrue};
ghost use Rattle.idpf_lanes.specs.Stands.{AreLong, AreFronts, AreFound};

use definitions::Sequence;
use field64::Fe;
use idpf_eval::{LevelWord, Node, Share, eval_uncounted};
use idpf_lanes::{NodeBuffers, fronts_of};
use prefix_bits::{Prefix, ReportId, Side};
use seed_expand::Seed;
use std::alloc::{AllocError, Global};

/// A list of prefixes of one length, each by the number that its bits are.
#[derive(Clone, Copy)]
struct Case<'a> {
    level: u16,
    numbers: &'a [u8],
}

/// A level's word, which is no other level's.
fn word_of(level: u8) -> LevelWord {
    LevelWord {
        seed: Seed([level; 32]),
        left: level % 2 == 0,
        right: level % 3 == 0,
        u: Fe::from_u128(u128::from(level)),
        v: Fe::from_u128(u128::MAX),
        a: Fe::zero(),
        b: Fe::zero(),
    }
}

/// A share of 8 levels.
fn share_of(alloc: Global) -> Result<Share, AllocError>
    ensures levels { IfOk result (λ s. length s.levels ≡ 8) }
{
    let words = [
        word_of(1),
        word_of(2),
        word_of(3),
        word_of(4),
        word_of(5),
        word_of(6),
        word_of(7),
        word_of(8),
    ];
    Ok(Share {
        id: ReportId([0; 16]),
        root: Seed([9; 32]),
        corr: Seed([0; 32]),
        levels: Sequence::from_vec(Vec::from_array(alloc, words)?),
    })
}

/// The first bits of a number, at most 8, the lowest first.
fn prefix_of(number: u8, bits: u16) -> Prefix {
    let mut prefix = Prefix::empty();
    for place in 0..bits.min(8) {
        prefix = prefix.child(number >> place & 1 == 1);
    }
    prefix
}

/// The prefixes of a case.
fn prefixes_of(alloc: Global, case: &Case<'_>) -> Result<Vec<Prefix>, AllocError> {
    let mut prefixes = Vec::new(alloc);
    for number in case.numbers {
        prefixes.push(prefix_of(*number, case.level))?;
    }
    Ok(prefixes)
}

/// Whether all prefixes have so many bits.
fn are_long(prefixes: &[Prefix], level: u16) -> bool
    ensures { IsTrue result → AreLong level prefixes.now }
{
    for k in 0..prefixes.len() {
        let prefix = &prefixes[k];
        if prefix.len() != level {
            return false;
        }
    }
    true
}

/// A node that is none of the share's.
fn blank() -> Node {
    Node {
        seed: Seed([0; 32]),
        bit: false,
        d: Fe::zero(),
        e: Fe::zero(),
    }
}

/// Whether these are the nodes of the prefixes, by the evaluation from the root.
fn are_nodes(share: &Share, side: Side, level: u16, prefixes: &[Prefix], nodes: &[Node]) -> bool
    requires level { level ≤ length share.now.levels }
    requires bits { AreLong level prefixes.now }
    requires same { length nodes.now ≡ length prefixes.now }
{
    for k in 0..prefixes.len() {
        let prefix = &prefixes[k];
        if nodes[k] != eval_uncounted(share, side, prefix) {
            return false;
        }
    }
    true
}

/// Whether the way down for all prefixes makes their nodes.
fn goes_down(
    alloc: Global,
    share: &Share,
    side: Side,
    level: u16,
    prefixes: &[Prefix],
) -> Result<bool, AllocError>
    requires level { level ≤ length share.now.levels }
    requires bits { AreLong level prefixes.now }
{
    let mut buffers = NodeBuffers::new(alloc, prefixes.len())?;
    let mut into = vec![in alloc; blank(); prefixes.len()]?;
    buffers.nodes_at(share, side, level, prefixes, &mut into);
    Ok(are_nodes(share, side, level, prefixes, &into))
}

/// Whether the nodes of the fronts lead to those of the prefixes, over room for as many of each.
fn follows_from(
    share: &Share,
    side: Side,
    level: u16,
    prefixes: &[Prefix],
    fronts: &mut [Prefix],
    places: &mut [usize],
    parents: &mut [Node],
    into: &mut [Node],
    buffers: &mut NodeBuffers,
) -> bool
    requires first { 1 ≤ level }
    requires level { level ≤ length share.now.levels }
    requires bits { AreLong level prefixes.now }
    requires fronts { length fronts.old ≡ length prefixes.now }
    requires places { length places.old ≡ length prefixes.now }
    requires parents { length parents.old ≡ length prefixes.now }
    requires same { length into.old ≡ length prefixes.now }
    requires room { length prefixes.now ≤ buffers.old }
{
    let made = fronts_of(level, prefixes, fronts, places);
    follows_from_fronts(
        share,
        side,
        level,
        prefixes,
        &fronts[..made],
        places,
        &mut parents[..made],
        into,
        buffers,
    )
}

/// The same with the fronts that were made.
fn follows_from_fronts(
    share: &Share,
    side: Side,
    level: u16,
    prefixes: &[Prefix],
    fronts: &[Prefix],
    places: &[usize],
    parents: &mut [Node],
    into: &mut [Node],
    buffers: &mut NodeBuffers,
) -> bool
    requires first { 1 ≤ level }
    requires level { level ≤ length share.now.levels }
    requires bits { AreLong level prefixes.now }
    requires fronts { AreFronts (level - 1) prefixes.now fronts.now places.now }
    requires places { length places.now ≡ length prefixes.now }
    requires parents { length parents.old ≡ length fronts.now }
    requires same { length into.old ≡ length prefixes.now }
    requires room { length prefixes.now ≤ buffers.old }
    requires less { length fronts.now ≤ buffers.old }
{
    buffers.nodes_at(share, side, level - 1, fronts, parents);
    buffers.children_of(share, side, level, prefixes, fronts, places, parents, into);
    are_nodes(share, side, level, prefixes, into)
}

/// Whether the nodes of the prefixes follow from those of their fronts.
fn follows(
    alloc: Global,
    share: &Share,
    side: Side,
    level: u16,
    prefixes: &[Prefix],
) -> Result<bool, AllocError>
    requires first { 1 ≤ level }
    requires level { level ≤ length share.now.levels }
    requires bits { AreLong level prefixes.now }
{
    let mut buffers = NodeBuffers::new(alloc, prefixes.len())?;
    let mut fronts = vec![in alloc; Prefix::empty(); prefixes.len()]?;
    let mut places = vec![in alloc; 0; prefixes.len()]?;
    let mut parents = vec![in alloc; blank(); prefixes.len()]?;
    let mut into = vec![in alloc; blank(); prefixes.len()]?;
    Ok(follows_from(
        share,
        side,
        level,
        prefixes,
        &mut fronts,
        &mut places,
        &mut parents,
        &mut into,
        &mut buffers,
    ))
}

/// The nodes of the prefixes, without those at which the bit of `missing` is set.
fn find(
    share: &Share,
    side: Side,
    level: u16,
    prefixes: &[Prefix],
    missing: u8,
    found: &mut [Option<Node>],
)
    requires level { level ≤ length share.now.levels }
    requires bits { AreLong level prefixes.now }
    requires same { length found.old ≡ length prefixes.now }
    ensures same { length found.new ≡ length prefixes.now }
    ensures found { AreFound share.now side prefixes.now found.new }
{
    for k in 0..prefixes.len() {
        let prefix = &prefixes[k];
        found[k] = if k < 8 && missing >> k & 1 == 0 {
            Some(eval_uncounted(share, side, prefix))
        } else {
            None
        };
    }
}

/// Whether the missing nodes are made and the found ones kept, over room for as many.
fn completes_over(
    share: &Share,
    side: Side,
    level: u16,
    prefixes: &[Prefix],
    missing: u8,
    found: &mut [Option<Node>],
    wanted: &mut [Prefix],
    into: &mut [Node],
    buffers: &mut NodeBuffers,
) -> bool
    requires level { level ≤ length share.now.levels }
    requires bits { AreLong level prefixes.now }
    requires found { length found.old ≡ length prefixes.now }
    requires wanted { length wanted.old ≡ length prefixes.now }
    requires same { length into.old ≡ length prefixes.now }
    requires room { length prefixes.now ≤ buffers.old }
{
    find(share, side, level, prefixes, missing, found);
    buffers.nodes_found(share, side, level, prefixes, found, wanted, into);
    are_nodes(share, side, level, prefixes, into)
}

/// Whether the nodes of all prefixes come, where those are missing at which the bit of `missing` is set.
fn completes(
    alloc: Global,
    share: &Share,
    side: Side,
    level: u16,
    prefixes: &[Prefix],
    missing: u8,
) -> Result<bool, AllocError>
    requires level { level ≤ length share.now.levels }
    requires bits { AreLong level prefixes.now }
{
    let mut buffers = NodeBuffers::new(alloc, prefixes.len())?;
    let mut found = vec![in alloc; None; prefixes.len()]?;
    let mut wanted = vec![in alloc; Prefix::empty(); prefixes.len()]?;
    let mut into = vec![in alloc; blank(); prefixes.len()]?;
    Ok(completes_over(
        share,
        side,
        level,
        prefixes,
        missing,
        &mut found,
        &mut wanted,
        &mut into,
        &mut buffers,
    ))
}

/// Whether all three ways make the nodes of a case, with none missing, then one at the front, two in the middle, one at the end, and all.
fn agrees(alloc: Global, share: &Share, side: Side, case: &Case<'_>) -> Result<bool, AllocError>
    requires first { 1 ≤ case.now.level }
    requires level { case.now.level ≤ length share.now.levels }
{
    let prefixes = prefixes_of(alloc, case)?;
    if !are_long(&prefixes, case.level) {
        return Ok(false);
    }
    let mut same = goes_down(alloc, share, side, case.level, &prefixes)?;
    same &= follows(alloc, share, side, case.level, &prefixes)?;
    for missing in [0, 0b1, 0b110, 0b1_0000, 0b1111_1111] {
        same &= completes(alloc, share, side, case.level, &prefixes, missing)?;
    }
    Ok(same)
}

#[test]
fn nodes_of_a_list_are_those_of_each_prefix(rt: HostRuntime) -> Result<(), AllocError> {
    let share = share_of(rt.alloc())?;
    for case in [
        Case {
            level: 3,
            numbers: &[],
        },
        Case {
            level: 1,
            numbers: &[0],
        },
        Case {
            level: 8,
            numbers: &[3, 3, 3, 131, 3],
        },
        Case {
            level: 8,
            numbers: &[200, 17, 200, 72, 5],
        },
        Case {
            level: 3,
            numbers: &[0, 4, 2, 6, 1, 5, 3, 7, 7],
        },
    ] {
        for side in [Side::Zero, Side::One] {
            assert!(rt;
                agrees(rt.alloc(), &share, side, &case)?,
                "{side:?} {:?}",
                case.numbers
            );
        }
    }
    Ok(())
}
