//! The children of many nodes by a list of steps, over slices of one length: gather, expand, correct, convert, finish.

ghost use Rattle.std.specs.Prelude.{◌≡◌, ◌≤◌, length, map, take};
ghost use Rattle.definitions.specs.Words.{extend, convert};
ghost use Rattle.node_growth.specs.Steps.{AreWithin, child_of, seed_of};

use crate::child_nodes::{corrected, finished};
use crate::step::Step;
use idpf_eval::{LevelWord, Node};
use prefix_bits::Side;
use seed_expand::{Children, Converted, Seed};
use seed_lanes::{convert_many, extend_many};

/// The nodes' seeds, into the first places.
fn gather(nodes: &[Node], seeds: &mut [Seed])
    requires room { length nodes.now ≤ length seeds.old }
    ensures same { length seeds.new ≡ length seeds.old }
    ensures seeds { take (length nodes.now) seeds.new ≡ map (λ n. n.seed) nodes.now }
{
    for k in 0..nodes.len() {
        let node = &nodes[k];
        seeds[k] = node.seed;
    }
}

/// The corrected seeds of the steps' children, into the first places.
fn correct(
    word: &LevelWord,
    nodes: &[Node],
    children: &[Children],
    steps: &[Step],
    seeds: &mut [Seed],
)
    requires children { children.now ≡ map (λ n. extend n.seed) nodes.now }
    requires within { AreWithin (length nodes.now) steps.now }
    requires room { length steps.now ≤ length seeds.old }
    ensures same { length seeds.new ≡ length seeds.old }
    ensures seeds { take (length steps.now) seeds.new ≡ map (seed_of word.now nodes.now) steps.now }
{
    for k in 0..steps.len() {
        let step = steps[k];
        seeds[k] = corrected(word, &nodes[step.from], &children[step.from], step.bit);
    }
}

/// The steps' children, into the first places.
fn finish(
    word: &LevelWord,
    side: Side,
    nodes: &[Node],
    children: &[Children],
    steps: &[Step],
    converted: &[Converted],
    into: &mut [Node],
)
    requires children { children.now ≡ map (λ n. extend n.seed) nodes.now }
    requires within { AreWithin (length nodes.now) steps.now }
    requires converted { converted.now ≡ map (λ s. convert (seed_of word.now nodes.now s)) steps.now }
    requires room { length steps.now ≤ length into.old }
    ensures same { length into.new ≡ length into.old }
    ensures nodes { take (length steps.now) into.new ≡ map (child_of word.now side nodes.now) steps.now }
{
    for k in 0..steps.len() {
        let step = steps[k];
        into[k] = finished(
            word,
            side,
            &nodes[step.from],
            &children[step.from],
            step.bit,
            &converted[k],
        );
    }
}

/// The children of the first seeds, into the first places.
fn extend_first(count: usize, seeds: &[Seed], children: &mut [Children])
    requires room { count ≤ length seeds.now }
    requires same { length children.old ≡ length seeds.now }
    ensures same { length children.new ≡ length children.old }
    ensures children { take count children.new ≡ map extend (take count seeds.now) }
{
    extend_many(&seeds[..count], &mut children[..count]);
}

/// What the first seeds are converted to, into the first places.
fn convert_first(count: usize, seeds: &[Seed], converted: &mut [Converted])
    requires room { count ≤ length seeds.now }
    requires same { length converted.old ≡ length seeds.now }
    ensures same { length converted.new ≡ length converted.old }
    ensures converted { take count converted.new ≡ map convert (take count seeds.now) }
{
    convert_many(&seeds[..count], &mut converted[..count]);
}

/// The steps' children, into the first places. Each node's seed is expanded once. What the seeds and their results held is lost.
pub(crate) fn grow_over(
    word: &LevelWord,
    side: Side,
    nodes: &[Node],
    steps: &[Step],
    into: &mut [Node],
    seeds: &mut [Seed],
    children: &mut [Children],
    converted: &mut [Converted],
)
    requires within { AreWithin (length nodes.now) steps.now }
    requires room { length steps.now ≤ length into.old }
    requires parents { length nodes.now ≤ length seeds.old }
    requires more { length steps.now ≤ length seeds.old }
    requires expanded { length children.old ≡ length seeds.old }
    requires numbers { length converted.old ≡ length seeds.old }
    ensures same { length into.new ≡ length into.old }
    ensures nodes { take (length steps.now) into.new ≡ map (child_of word.now side nodes.now) steps.now }
{
    gather(nodes, seeds);
    extend_first(nodes.len(), seeds, children);
    correct(word, nodes, &children[..nodes.len()], steps, seeds);
    convert_first(steps.len(), seeds, converted);
    finish(
        word,
        side,
        nodes,
        &children[..nodes.len()],
        steps,
        &converted[..steps.len()],
        into,
    );
}
