//! The making of parts, all at once, each in a thread of its own where these can be made.
//! A part that finds no memory stays without a node.

ghost use Rattle.std.specs.Prelude.{◌≡◌, ◌≤◌, ◌<◌, length, IfOk, vec_len};
ghost use Rattle.std.specs.List.{All};
ghost use Rattle.idpf_lanes.specs.Stands.{AreLong};
ghost use Rattle.kept_nodes.specs.Parts.{AreParts, IsPartOf, IsReady};

use crate::kept_nodes::KeptNodes;
use crate::part::KeptPart;
use crate::rows::rows_of;
use idpf_eval::Share;
use prefix_bits::{Prefix, Side};
use seats::{Site, serve_all};
use std::alloc::{AllocError, Global};
use std::sync::Wait;
use std::thread::Threads;

/// What all parts are made from: the nodes that were kept before, and the prefixes.
#[derive(Drop)]
pub(crate) struct Making<'t, 'a> {
    pub alloc: Global,
    pub before: &'t KeptNodes<'a>,
    /// The number of bits of the prefixes.
    pub level: u16,
    pub prefixes: &'t [Prefix],
}

/// The part of the same reports at the prefixes. `AllocError` is want of memory.
fn made_part<'t, 'a>(
    making: &Making<'t, 'a>,
    part: &KeptPart<'a>,
) -> Result<KeptPart<'a>, AllocError>
    requires ready { IsReady making.now.before.now making.now.level making.now.prefixes.now part.now }
    ensures { IfOk result (IsPartOf making.now.before.now.shares making.now.before.now.side) }
{
    let places = part.places();
    let nodes = rows_of(
        making.alloc,
        making.before,
        making.level,
        making.prefixes,
        places,
    )?;
    let places = Vec::from_slice(making.alloc, places)?;
    let prefixes = Vec::from_slice(making.alloc, making.prefixes)?;
    Ok(KeptPart::of(
        making.before.shares(),
        making.before.side(),
        places,
        prefixes,
        nodes,
    ))
}

impl<'t, 'a> Site<KeptPart<'a>> for Making<'t, 'a> {
    ghost ready = { λ making part. IsReady making.before.now making.level making.prefixes.now part };

    ghost done = { λ making _ new. IsPartOf making.before.now.shares making.before.now.side new };

    fn serve<R: Wait>(&self, _rt: &R, part: &mut KeptPart<'a>) {
        if let Ok(made) = made_part(self, part) {
            *part = made;
        }
    }
}

/// Parts of a side's live reports, at no prefix yet. `AllocError` is want of memory.
fn parts_without_prefixes<'a>(
    alloc: Global,
    shares: &'a [Share],
    side: Side,
    live: &[u32],
    count: usize,
) -> Result<Vec<KeptPart<'a>>, AllocError>
    requires some { 0 < count }
    requires live { All (λ i. i < length shares.now) live.now }
    ensures count { IfOk result (λ parts. vec_len parts ≡ count) }
    ensures parts { IfOk result (λ parts. AreParts shares.entry.now side parts.items) }
    ensures reports { IfOk result (λ parts. All (λ part. All (λ i. i < length shares.entry.now) part.places) parts.items) }
{
    let mut parts = Vec::with_capacity(alloc, count)?;
    for number in 0..count {
        parts.push_reserved(KeptPart::without_prefixes(alloc, shares, side, live, number, count)?);
    }
    Ok(parts)
}

/// The nodes of the reports at these places of a side's shares, at prefixes of that many bits, in so many parts. Each is one step from
/// the node of its front, which is one of those that were kept before, or else is reached by one way down for all fronts of the report.
/// A part that finds no memory has none. `AllocError` is want of memory for the parts themselves.
pub(crate) fn kept_at<'a, R: Threads + Wait + Sync>(
    rt: &R,
    alloc: Global,
    before: &KeptNodes<'a>,
    level: u16,
    prefixes: &[Prefix],
    live: &[u32],
    parts: usize,
) -> Result<KeptNodes<'a>, AllocError>
    requires parts { 0 < parts }
    requires first { 1 ≤ level }
    requires bits { AreLong level prefixes.now }
    requires live { All (λ i. i < length before.now.shares) live.now }
    requires levels { All (λ s. level ≤ length s.levels) before.now.shares }
    ensures { IfOk result (λ kept. kept ≡ before.entry.now) }
{
    let (shares, side) = (before.shares(), before.side());
    let mut parts = parts_without_prefixes(alloc, shares, side, live, parts)?;
    let making = Making {
        alloc,
        before,
        level,
        prefixes,
    };
    serve_all(rt, &making, parts.as_mut_slice());
    Ok(KeptNodes::of(shares, side, parts))
}
