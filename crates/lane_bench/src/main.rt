//! Times the nodes of one side at levels 8, 16 and 32: each from the root, all by one way down, and from their fronts' nodes.
//! SHARES shares of 4 bytes by both children of FRONTS fronts. Prints what was made on out, and nanoseconds a node on err.
#![tactic(auto)]

mod input;
mod times;

ghost use Rattle.std.specs.Prelude.{◌≤◌, ◌%◌, ◌≡◌, IfOk};

use crate::input::{are_long, candidates, shares_of};
use crate::times::time_level;
use std::{env, io};

/// The number that a word behind the program's name is, at most `most`; 1 where there is none.
fn number_at(rt: &HostRuntime, place: usize, most: u32) -> io::Result<u32>
    requires some { 1 ≤ most }
    ensures within { IfOk result (λ n. (1 ≤ n) × (n ≤ most)) }
{
    let Some(word) = env::args(rt)?.skip(place).next() else {
        return Ok(1);
    };
    match word.parse::<u32>() {
        Ok(number) => Ok(number.clamp(1, most)),
        Err(_) => Ok(1),
    }
}

fn main(rt: HostRuntime) -> io::Result<()> {
    let reports = number_at(&rt, 1, 100_000)?;
    let fronts = number_at(&rt, 2, 1000)?;
    let shares = shares_of(rt.alloc(), reports)?;
    for level in [8u16, 16, 32] {
        let prefixes = candidates(rt.alloc(), level, fronts)?;
        if !are_long(&prefixes, level) {
            println!(rt; "no candidates")?;
            return Ok(());
        }
        let times = time_level(&rt, &shares, level, &prefixes)?;
        let nodes = times.nodes;
        println!(rt; "level {level} nodes {nodes} equal {}", times.equal)?;
        let root = times.root / nodes.max(1);
        let down = times.down / nodes.max(1);
        let children = times.children / nodes.max(1);
        eprintln!(rt;
            "level {level}: nanoseconds a node from the root {root}, down {down}, from parents {children}"
        )?;
    }
    Ok(())
}
