//! Room for one level of many lines.

ghost use Rattle.std.specs.Prelude.{◌≡◌, length, map, IfOk};
ghost use Rattle.std.specs.List.{All};
ghost use Rattle.generation_lanes.specs.Growing.{one_level, IsReady};

use crate::growing_pair::{GrowingPair, blank_word};
use crate::level::level_over;
use crate::turn::Turn;
use idpf_gen::Path;
use seed_expand::{Children, Converted, Seed};
use seed_lanes::Numbers;
use std::alloc::{AllocError, Global};
use std::marker::Model;

/// Room for one level of so many lines, seen as that number.
#[derive(Drop)]
pub(crate) struct LevelBuffers {
    seeds0: Vec<Seed>,
    seeds1: Vec<Seed>,
    from0: Vec<Children>,
    from1: Vec<Children>,
    to0: Vec<Converted>,
    to1: Vec<Converted>,
    coins: Vec<Numbers>,
    corr0: Vec<Numbers>,
    corr1: Vec<Numbers>,
    turns: Vec<Turn>,
}

impl Model for LevelBuffers {
    ghost use Rattle.std.specs.Prelude.{ℕ, ◌≡◌, vec_len};

    ghost Value = { ℕ };

    ghost view = { λ b. vec_len b.seeds0 };

    ghost invariant = { λ b. (vec_len b.seeds1 ≡ vec_len b.seeds0) × (vec_len b.from0 ≡ vec_len b.seeds0) × (vec_len b.from1 ≡ vec_len b.seeds0)
        × (vec_len b.to0 ≡ vec_len b.seeds0) × (vec_len b.to1 ≡ vec_len b.seeds0) × (vec_len b.coins ≡ vec_len b.seeds0)
        × (vec_len b.corr0 ≡ vec_len b.seeds0) × (vec_len b.corr1 ≡ vec_len b.seeds0) × (vec_len b.turns ≡ vec_len b.seeds0) };
}

impl LevelBuffers {
    /// Room for so many lines. `AllocError` is want of memory.
    pub(crate) fn new(alloc: Global, lines: usize) -> Result<LevelBuffers, AllocError>
        ensures room { IfOk result (λ b. b ≡ lines) }
    {
        let seed = Seed([0; 32]);
        let children = Children {
            left: seed,
            right: seed,
            bit_left: false,
            bit_right: false,
        };
        let converted = Converted {
            next: seed,
            u: 0,
            v: 0,
        };
        let numbers = Numbers {
            first: 0,
            second: 0,
            third: 0,
        };
        let turn = Turn {
            zero: blank_word(),
            one: blank_word(),
            path: Path {
                seed0: seed,
                bit0: false,
                seed1: seed,
                bit1: false,
            },
        };
        Ok(LevelBuffers {
            seeds0: vec![in alloc; seed; lines]?,
            seeds1: vec![in alloc; seed; lines]?,
            from0: vec![in alloc; children; lines]?,
            from1: vec![in alloc; children; lines]?,
            to0: vec![in alloc; converted; lines]?,
            to1: vec![in alloc; converted; lines]?,
            coins: vec![in alloc; numbers; lines]?,
            corr0: vec![in alloc; numbers; lines]?,
            corr1: vec![in alloc; numbers; lines]?,
            turns: vec![in alloc; turn; lines]?,
        })
    }

    /// Takes each line one level further down, to this level, counted from 1. It takes no memory.
    pub(crate) fn go_down(&mut self, lines: &mut [GrowingPair], level: u16)
        requires ready { All (IsReady level) lines.old }
        requires room { length lines.old ≡ self.old }
        ensures lines { lines.new ≡ map one_level lines.old }
        ensures room { self.new ≡ self.old }
    {
        level_over(
            lines,
            level,
            &mut self.seeds0,
            &mut self.seeds1,
            &mut self.from0,
            &mut self.from1,
            &mut self.to0,
            &mut self.to1,
            &mut self.coins,
            &mut self.corr0,
            &mut self.corr1,
            &mut self.turns,
        );
    }
}
