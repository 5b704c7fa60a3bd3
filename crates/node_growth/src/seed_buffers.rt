//! Room for the seeds of many nodes and their children, and the step that uses it.

ghost use Rattle.std.specs.Prelude.{◌≡◌, ◌≤◌, length, map, take, IfOk};
ghost use Rattle.node_growth.specs.Steps.{AreWithin, child_of};

use crate::growth::grow_over;
use crate::step::Step;
use idpf_eval::{LevelWord, Node};
use prefix_bits::Side;
use seed_expand::{Children, Converted, Seed};
use std::alloc::{AllocError, Global};
use std::marker::Model;

/// Room for the seeds of so many nodes and of as many children, seen as that number.
#[derive(Debug, Drop)]
pub struct SeedBuffers {
    seeds: Vec<Seed>,
    children: Vec<Children>,
    converted: Vec<Converted>,
}

impl Model for SeedBuffers {
    ghost use Rattle.std.specs.Prelude.{ℕ, ◌≡◌, vec_len};

    ghost Value = { ℕ };

    ghost view = { λ b. vec_len b.seeds };

    ghost invariant = { λ b. (vec_len b.children ≡ vec_len b.seeds) × (vec_len b.converted ≡ vec_len b.seeds) };
}

impl SeedBuffers {
    /// Room for so many nodes. `AllocError` is want of memory.
    pub fn new(alloc: Global, most: usize) -> Result<SeedBuffers, AllocError>
        ensures room { IfOk result (λ b. b ≡ most) }
    {
        let seed = Seed([0; 32]);
        let children = Children {
            left: seed,
            right: seed,
            bit_left: false,
            bit_right: false,
        };
        let converted = Converted {
            next: seed,
            u: 0,
            v: 0,
        };
        Ok(SeedBuffers {
            seeds: vec![in alloc; seed; most]?,
            children: vec![in alloc; children; most]?,
            converted: vec![in alloc; converted; most]?,
        })
    }

    /// The steps' children by the word of their level, in the steps' order, into the first places of `into`. Each node's seed
    /// is expanded once, for both its children. It takes no memory.
    pub fn grow(
        &mut self,
        word: &LevelWord,
        side: Side,
        nodes: &[Node],
        steps: &[Step],
        into: &mut [Node],
    )
        requires within { AreWithin (length nodes.now) steps.now }
        requires room { length steps.now ≤ length into.old }
        requires parents { length nodes.now ≤ self.old }
        requires children { length steps.now ≤ self.old }
        ensures same { length into.new ≡ length into.old }
        ensures nodes { take (length steps.now) into.new ≡ map (child_of word.now side nodes.now) steps.now }
        ensures room { self.new ≡ self.old }
    {
        grow_over(
            word,
            side,
            nodes,
            steps,
            into,
            &mut self.seeds,
            &mut self.children,
            &mut self.converted,
        );
    }
}
