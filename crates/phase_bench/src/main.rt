//! Times PHASES phases of the check, one after another: REPORTS reports of 2 bytes by 8 candidates at level 16, with WORKERS workers.
//! Each has a cache of its own. Prints the tiles and how many were swept on out, and the milliseconds on err.
#![tactic(auto)]

mod input;

ghost use Rattle.std.specs.Prelude.{◌≤◌, IfOk};

use crate::input::{Input, plan_of};
use eval_cache::EvalCache;
use phase_workers::{Crew, run_phase};
use prefix_bits::Side;
use shelf_io::OpenGate;
use std::time::Instant;
use std::{env, io};

/// The number that a word behind the program's name is, at most `most`; 1 where there is none.
fn number_at(rt: &HostRuntime, place: usize, most: u32) -> io::Result<u32>
    requires some { 1 ≤ most }
    ensures within { IfOk result (λ n. (1 ≤ n) × (n ≤ most)) }
{
    let Some(word) = env::args(rt)?.skip(place).next() else {
        return Ok(1);
    };
    match word.parse::<u32>() {
        Ok(number) => Ok(number.clamp(1, most)),
        Err(_) => Ok(1),
    }
}

fn main(rt: HostRuntime) -> io::Result<()> {
    let reports = number_at(&rt, 1, 100_000)?;
    let workers = number_at(&rt, 2, 64)?;
    let phases = number_at(&rt, 3, 1_000)?;
    let input = Input::new(rt.alloc(), reports)?;
    let Some(plan) = plan_of(&input) else {
        println!(rt; "no plan")?;
        return Ok(());
    };
    let shares = input.shares.as_slice();
    for number in 1..=phases {
        let (cache, passes) = EvalCache::new(
            rt.alloc(),
            shares,
            Side::Zero,
            16,
            4096,
            workers + 1,
        )?;
        let crew = Crew::new(rt.alloc(), plan.copy(), &cache, passes, workers)?;
        let begun = Instant::now(&rt)?;
        let phase = run_phase(&rt, crew, &OpenGate);
        let taken = begun.elapsed(&rt)?.as_micros();
        println!(rt; "tiles {} swept {}", phase.done.tiles, phase.done.swept)?;
        eprintln!(rt; "reports {reports} workers {workers} phase {number} microseconds {taken}")?;
    }
    Ok(())
}
