//! Both sides' shares of a list of strings, a block of lines after another.

ghost use Rattle.std.specs.Prelude.{◌≡◌, ◌+◌, ◌%◌, ◌^◌, ◌≤◌, ◌<◌, length, take, IfOk, OnOk};
ghost use Rattle.std.specs.List.{All};
ghost use Rattle.idpf_gen.specs.Made.{made_zero, made_one};

use crate::blocks::add_block;
use idpf_eval::Share;
use prefix_bits::{MOST_BITS, Prefix};
use seed_expand::Seed;
use std::alloc::{AllocError, Global};

/// The most lines whose pairs are made at once.
pub const LINES: usize = 64;

/// Puts both sides' shares of so many more lines behind those of the lines before.
fn add_lines(
    alloc: Global,
    master: &Seed,
    tag: u64,
    line: u32,
    strings: &[Prefix],
    bits: u16,
    at: usize,
    count: usize,
    zeros: &mut Vec<Share>,
    ones: &mut Vec<Share>,
) -> Result<(), AllocError>
    requires lines { line + length strings.now < 2 ^ 32 }
    requires bits { All (λ string. length string ≡ bits) strings.now }
    requires width { (8 ≤ bits) × (bits ≤ MOST_BITS) × (bits % 8 ≡ 0) }
    requires place { at + count ≤ length strings.now }
    requires zeros { zeros.old.items ≡ made_zero master.now tag line (take at strings.now) }
    requires ones { ones.old.items ≡ made_one master.now tag line (take at strings.now) }
    ensures zeros { OnOk result (zeros.new.items ≡ made_zero master.now tag line (take (at + count) strings.now)) }
    ensures ones { OnOk result (ones.new.items ≡ made_one master.now tag line (take (at + count) strings.now)) }
{
    add_block(
        alloc,
        master,
        tag,
        line + at as u32,
        &strings[at..at + count],
        bits,
        zeros,
        ones,
    )
}

/// The shares of strings of `bits` bits each, 8 to `MOST_BITS` and a multiple of 8, the first of which stands on this line, counted from 0: side 0's list, then side 1's,
/// both in the order of the strings. They are the pairs that `idpf_gen` makes of the strings one by one: an id is the tag and the
/// line, and the coins of a line come from the master seed. The last line is to be below 2^32 - 1. The pairs are made level by level over
/// at most `LINES` lines at once. `AllocError` is want of memory.
pub fn pair_lists_of(
    alloc: Global,
    master: &Seed,
    tag: u64,
    line: u32,
    strings: &[Prefix],
    bits: u16,
) -> Result<(Vec<Share>, Vec<Share>), AllocError>
    requires lines { line + length strings.now < 2 ^ 32 }
    requires bits { All (λ string. length string ≡ bits) strings.now }
    requires width { (8 ≤ bits) × (bits ≤ MOST_BITS) × (bits % 8 ≡ 0) }
    ensures zeros { IfOk result (λ lists. lists.0.items ≡ made_zero master.now tag line strings.now) }
    ensures ones { IfOk result (λ lists. lists.1.items ≡ made_one master.now tag line strings.now) }
    ensures counts { IfOk result (λ lists. (length lists.0.items ≡ length strings.now) × (length lists.1.items ≡ length strings.now)) }
{
    let mut zeros = Vec::with_capacity(alloc, strings.len())?;
    let mut ones = Vec::with_capacity(alloc, strings.len())?;
    let whole = strings.len() / LINES;
    for block in 0..whole {
        add_lines(
            alloc,
            master,
            tag,
            line,
            strings,
            bits,
            LINES * block,
            LINES,
            &mut zeros,
            &mut ones,
        )?;
    }
    let at = LINES * whole;
    add_lines(
        alloc,
        master,
        tag,
        line,
        strings,
        bits,
        at,
        strings.len() - at,
        &mut zeros,
        &mut ones,
    )?;
    Ok((zeros, ones))
}
