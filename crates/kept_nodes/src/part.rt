//! One part of the nodes that are kept of a side's shares: one list, report by report, prefix by prefix.
//! A look-up gives the node that the evaluation from the root gives.

ghost use Rattle.std.specs.Prelude.{◌≡◌, ◌+◌, ◌*◌, ◌%◌, ◌<◌, [], length, slice_index, slice_index_or, IfOk, IfSome};
ghost use Rattle.std.specs.List.{All};
ghost use Rattle.node_growth.specs.Steps.{no_node};
ghost use Rattle.idpf_lanes.specs.Stands.{AreFound};
ghost use Rattle.kept_nodes.specs.Kept.{share_at, node_at, nodes_of};

use idpf_eval::{Node, Share};
use prefix_bits::{Prefix, Side};
use std::alloc::{AllocError, Global};
use std::marker::Model;

/// The nodes of some reports of one side, each at the same prefixes. Contracts see the side, its shares, the places of the
/// reports among them, and the prefixes.
#[derive(Drop)]
pub(crate) struct KeptPart<'a> {
    shares: &'a [Share],
    side: Side,
    places: Vec<u32>,
    prefixes: Vec<Prefix>,
    nodes: Vec<Node>,
}

impl<'a> Model for KeptPart<'a> {
    ghost use Rattle.std.specs.Prelude.{◌≡◌};
    ghost use Rattle.kept_nodes.specs.Kept.{nodes_of, PartSeen};

    ghost Value = { PartSeen };

    ghost view = { λ k. record { shares = k.shares.now; side = k.side; places = k.places.items; prefixes = k.prefixes.items } };

    ghost invariant = { λ k. k.nodes.items ≡ nodes_of k.shares.now k.side k.prefixes.items k.places.items };
}

/// Those of the places that are `number` modulo `count`, in their order. All places are below `most`. `AllocError` is want of memory.
fn every(
    alloc: Global,
    places: &[u32],
    number: usize,
    count: usize,
    most: usize,
) -> Result<Vec<u32>, AllocError>
    requires some { 0 < count }
    requires below { All (λ i. i < most) places.now }
    ensures { IfOk result (λ own. All (λ i. i < most) own.items) }
{
    let mut own = Vec::with_capacity(alloc, places.len() / count)?;
    for place in places {
        if *place as usize % count == number {
            own.push(*place)?;
        }
    }
    Ok(own)
}

/// The place of a prefix among others, looked for first at `guess`, and then by halves. Where they ascend, a prefix that is
/// there is found.
fn place_among(prefixes: &[Prefix], prefix: &Prefix, guess: usize) -> Option<usize>
    ensures within { IfSome result (λ k. k < length prefixes.now) }
    ensures there { IfSome result (λ k. slice_index_or prefixes.now k [] ≡ prefix.now) }
{
    if guess < prefixes.len() && prefixes[guess] == *prefix {
        return Some(guess);
    }
    match prefixes.binary_search(prefix) {
        Ok(place) => Some(place),
        Err(_) => None,
    }
}

/// The node at a place of a row, in a list of rows of that width.
fn node_in(nodes: &[Node], width: usize, row: usize, place: usize) -> Node
    requires { row * width + place < length nodes.now }
    ensures { result ≡ slice_index_or nodes.now (row * width + place) no_node }
{
    nodes[row * width + place]
}

impl<'a> KeptPart<'a> {
    /// Of those of the reports that are `number` modulo `count`, but at no prefix. `AllocError` is want of memory.
    pub(crate) fn without_prefixes(
        alloc: Global,
        shares: &'a [Share],
        side: Side,
        reports: &[u32],
        number: usize,
        count: usize,
    ) -> Result<KeptPart<'a>, AllocError>
        requires some { 0 < count }
        requires reports { All (λ i. i < length shares.now) reports.now }
        ensures shares { IfOk result (λ part. part.shares ≡ shares.entry.now) }
        ensures side { IfOk result (λ part. part.side ≡ side) }
        ensures reports { IfOk result (λ part. All (λ i. i < length shares.entry.now) part.places) }
    {
        Ok(KeptPart {
            shares,
            side,
            places: every(alloc, reports, number, count, shares.len())?,
            prefixes: Vec::new(alloc),
            nodes: Vec::new(alloc),
        })
    }

    /// These nodes of a side: of the reports at these places, report by report, at these prefixes.
    pub(crate) fn of(
        shares: &'a [Share],
        side: Side,
        places: Vec<u32>,
        prefixes: Vec<Prefix>,
        nodes: Vec<Node>,
    ) -> KeptPart<'a>
        requires nodes { nodes.items ≡ nodes_of shares.now side prefixes.items places.items }
        ensures { result ≡ record { shares = shares.entry.now; side = side; places = places.items; prefixes = prefixes.items } }
    {
        KeptPart {
            shares,
            side,
            places,
            prefixes,
            nodes,
        }
    }

    /// The side whose nodes they are.
    pub(crate) fn side(&self) -> Side
        ensures { result ≡ self.now.side }
    {
        self.side
    }

    /// The side's shares.
    pub(crate) fn shares(&self) -> &'a [Share]
        ensures { result.now ≡ self.now.shares }
    {
        self.shares
    }

    /// The reports' places among the shares.
    pub(crate) fn places(&self) -> &[u32]
        ensures { result.now ≡ self.now.places }
    {
        self.places.as_slice()
    }

    /// The place here of a report, looked for by halves.
    fn row_of(&self, report: u32) -> Option<usize>
        ensures within { IfSome result (λ row. row < length self.now.places) }
        ensures there { IfSome result (λ row. slice_index self.now.places row ≡ report) }
    {
        self.places.binary_search(&report).ok()
    }

    /// The place here of a prefix, looked for first at `guess`.
    fn place_of(&self, prefix: &Prefix, guess: usize) -> Option<usize>
        ensures within { IfSome result (λ k. k < length self.now.prefixes) }
        ensures there { IfSome result (λ k. slice_index_or self.now.prefixes k [] ≡ prefix.now) }
    {
        place_among(self.prefixes.as_slice(), prefix, guess)
    }

    /// The node of the report and the prefix that stand at these places here.
    fn at(&self, row: usize, place: usize) -> Node
        requires row { row < length self.now.places }
        requires place { place < length self.now.prefixes }
        ensures { result ≡ node_at self.now.shares self.now.side (slice_index self.now.places row) (slice_index_or self.now.prefixes place []) }
    {
        node_in(self.nodes.as_slice(), self.prefixes.len(), row, place)
    }

    /// The node of a report that was found, or else the one that is kept at the prefix. At which place to look first for the next
    /// prefix comes second.
    fn found_or_kept(
        &self,
        row: usize,
        report: u32,
        prefix: &Prefix,
        guess: usize,
        found: Option<Node>,
    ) -> (Option<Node>, usize)
        requires row { row < length self.now.places }
        requires there { slice_index self.now.places row ≡ report }
        requires found { IfSome found (λ n. n ≡ node_at self.now.shares self.now.side report prefix.now) }
        ensures { IfSome result.0 (λ n. n ≡ node_at self.now.shares self.now.side report prefix.now) }
    {
        if found.is_some() {
            return (found, guess);
        }
        match self.place_of(prefix, guess) {
            Some(place) => (Some(self.at(row, place)), place.saturating_add(1)),
            None => (None, guess),
        }
    }

    /// The node of a report at a prefix, where it is kept. It takes no memory.
    pub(crate) fn node(&self, report: u32, prefix: &Prefix) -> Option<Node>
        ensures { IfSome result (λ n. n ≡ node_at self.now.shares self.now.side report prefix.now) }
    {
        let Some(row) = self.row_of(report) else {
            return None;
        };
        self.found_or_kept(row, report, prefix, 0, None).0
    }

    /// Puts the nodes of a report that are kept at those places of `found` that have none. It takes no memory.
    pub(crate) fn put_kept(&self, report: u32, prefixes: &[Prefix], found: &mut [Option<Node>])
        requires same { length found.old ≡ length prefixes.now }
        requires found { AreFound (share_at self.now.shares report) self.now.side prefixes.now found.old }
        ensures same { length found.new ≡ length prefixes.now }
        ensures found { AreFound (share_at self.now.shares report) self.now.side prefixes.now found.new }
    {
        let Some(row) = self.row_of(report) else {
            return;
        };
        let mut guess = 0;
        for k in 0..prefixes.len() {
            let (node, next) = self.found_or_kept(row, report, &prefixes[k], guess, found[k]);
            found[k] = node;
            guess = next;
        }
    }
}
