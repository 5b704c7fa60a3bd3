//! The pairs of a block of lines: begun one by one, taken down together, finished one by one.

ghost use Rattle.std.specs.Prelude.{◌≡◌, ◌++◌, ◌+◌, ◌^◌, ◌<◌, length, map, IfOk, OnOk};
ghost use Rattle.std.specs.List.{All};
ghost use Rattle.idpf_gen.specs.Made.{of_lines, made_zero, made_one};
ghost use Rattle.generation_lanes.specs.Growing.{begun, levels_down, IsWhole, MayShare, zero_made, one_made};

use crate::growing_pair::GrowingPair;
use crate::level_buffers::LevelBuffers;
use idpf_eval::Share;
use prefix_bits::Prefix;
use seed_expand::Seed;
use std::alloc::{AllocError, Global};

/// The pairs of the strings before their first level.
fn begin_all(
    alloc: Global,
    master: &Seed,
    tag: u64,
    line: u32,
    strings: &[Prefix],
) -> Result<Vec<GrowingPair>, AllocError>
    requires lines { line + length strings.now < 2 ^ 32 }
    ensures { IfOk result (λ lines. lines.items ≡ of_lines (begun master.now tag) line strings.now) }
{
    let mut lines = Vec::with_capacity(alloc, strings.len())?;
    for place in 0..strings.len() {
        let string = &strings[place];
        lines.push(GrowingPair::begin(alloc, master, tag, line + place as u32, string)?)?;
    }
    Ok(lines)
}

/// The pairs of the strings after so many levels.
fn grow_all(
    alloc: Global,
    master: &Seed,
    tag: u64,
    line: u32,
    strings: &[Prefix],
    bits: u16,
) -> Result<Vec<GrowingPair>, AllocError>
    requires lines { line + length strings.now < 2 ^ 32 }
    requires bits { All (λ string. length string ≡ bits) strings.now }
    ensures { IfOk result (λ lines. lines.items ≡ map (levels_down bits) (of_lines (begun master.now tag) line strings.now)) }
{
    let mut lines = begin_all(alloc, master, tag, line, strings)?;
    let mut buffers = LevelBuffers::new(alloc, lines.len())?;
    for level in 0..bits {
        buffers.go_down(&mut lines, level + 1);
    }
    Ok(lines)
}

/// Puts both sides' shares of whole pairs behind those that stand.
fn finish_all(
    lines: Vec<GrowingPair>,
    zeros: &mut Vec<Share>,
    ones: &mut Vec<Share>,
) -> Result<(), AllocError>
    requires { All IsWhole lines.items }
    ensures zeros { OnOk result (zeros.new.items ≡ zeros.old.items ++ map zero_made lines.items) }
    ensures ones { OnOk result (ones.new.items ≡ ones.old.items ++ map one_made lines.items) }
{
    for line in lines {
        let (zero, one) = line.finish();
        zeros.push(zero)?;
        ones.push(one)?;
    }
    Ok(())
}

/// Puts both sides' shares of the strings, each of so many bits, behind those that stand. `AllocError` is want of memory.
pub(crate) fn add_block(
    alloc: Global,
    master: &Seed,
    tag: u64,
    line: u32,
    strings: &[Prefix],
    bits: u16,
    zeros: &mut Vec<Share>,
    ones: &mut Vec<Share>,
) -> Result<(), AllocError>
    requires lines { line + length strings.now < 2 ^ 32 }
    requires bits { All (λ string. length string ≡ bits) strings.now }
    requires width { MayShare bits }
    ensures zeros { OnOk result (zeros.new.items ≡ zeros.old.items ++ made_zero master.now tag line strings.now) }
    ensures ones { OnOk result (ones.new.items ≡ ones.old.items ++ made_one master.now tag line strings.now) }
{
    let lines = grow_all(alloc, master, tag, line, strings, bits)?;
    finish_all(lines, zeros, ones)
}
