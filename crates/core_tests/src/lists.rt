//! Lists of events drawn from a seed: uploads with repeats and clashes, then every level driven to its end, whatever was
//! drawn before. Many of the events are not enabled where they come.

use crate::draws::Draws;
use crate::shares::{share_of, string_of};
use definitions::Side;
use interleaving_core::Event;
use prefix_bits::{MOST_BITS, Prefix};
use std::alloc::{AllocError, Global};

/// How many upload to a side, and how many work on it.
pub const UPLOADERS: u32 = 3;

pub const WORKERS: u32 = 2;

/// A list of events, and which of the three lines have two contents on a side.
#[derive(Drop)]
pub struct Drawn {
    pub events: Vec<Event>,
    pub clashed: [bool; 3],
}

// Which events are drawn.
#[derive(Clone, Copy, Debug, PartialEq, Eq)]
enum Stretch {
    Collecting,
    Walking,
}

fn side_of(draws: &mut Draws) -> Side {
    if draws.below(2) == 0 {
        Side::Zero
    } else {
        Side::One
    }
}

// A prefix of a line's string, at times of no bit, and at times of one bit too many.
fn prefix_of(draws: &mut Draws) -> Prefix {
    let mut prefix = string_of(draws.below(3));
    for _ in 0..draws.below(9) {
        if prefix.len() > 0 {
            prefix = prefix.parent();
        }
    }
    if draws.below(4) == 0 && prefix.len() < MOST_BITS {
        prefix = prefix.child(true);
    }
    prefix
}

// An upload, at times of nobody's number.
fn upload(
    alloc: Global,
    draws: &mut Draws,
    drawn: &mut Drawn,
    stretch: Stretch,
) -> Result<(), AllocError> {
    let (side, pass, line) = (side_of(draws), draws.below(UPLOADERS + 1), draws.below(3));
    let clashes = draws.below(12) == 0;
    if clashes && pass < UPLOADERS && stretch == Stretch::Collecting {
        drawn.clashed[line as usize] = true;
    }
    let share = share_of(alloc, line, side, clashes)?;
    drawn.events.push(Event::Upload { side, pass, share })?;
    Ok(())
}

// Something at one side, at times by nobody's number or of no report, or a carry.
fn something(draws: &mut Draws) -> Event {
    let (side, worker, report) = (side_of(draws), draws.below(WORKERS + 1), draws.below(4));
    let prefix = prefix_of(draws);
    match draws.below(10) {
        0..=2 => Event::Claim { side, worker },
        3 => Event::Abandon { side, worker },
        4 | 5 => Event::Fill {
            side,
            report,
            prefix,
        },
        6 => Event::Evict {
            side,
            report,
            prefix,
        },
        7 => Event::Post { side, worker },
        8 => Event::Sweep { side },
        _ => Event::Carry,
    }
}

// A worker works until no tile is left.
fn work(
    draws: &mut Draws,
    events: &mut Vec<Event>,
    side: Side,
    worker: u32,
) -> Result<(), AllocError> {
    for _ in 0..14 {
        events.push(Event::Claim { side, worker })?;
        if draws.below(3) == 0 {
            events.push(Event::Abandon { side, worker })?;
        }
        events.push(Event::Post { side, worker })?;
    }
    Ok(())
}

// One phase: a stretch of anything, and then what brings it to its end.
fn phase(alloc: Global, draws: &mut Draws, drawn: &mut Drawn) -> Result<(), AllocError> {
    for _ in 0..draws.below(40) {
        drawn.events.push(something(draws))?;
    }
    upload(alloc, draws, drawn, Stretch::Walking)?;
    drawn.events.push(Event::Seal)?;
    for side in [Side::One, Side::Zero] {
        for worker in 0..WORKERS {
            work(draws, &mut drawn.events, side, worker)?;
        }
        for _ in 0..12 {
            drawn.events.push(Event::Sweep { side })?;
        }
    }
    drawn.events.push(Event::Carry)?;
    Ok(())
}

/// The list of a seed. `AllocError` is want of memory.
pub fn draw_list(alloc: Global, seed: u64) -> Result<Drawn, AllocError> {
    let mut draws = Draws::of(seed);
    let mut drawn = Drawn {
        events: Vec::new(alloc),
        clashed: [false; 3],
    };
    for _ in 0..12 {
        upload(alloc, &mut draws, &mut drawn, Stretch::Collecting)?;
        drawn.events.push(something(&mut draws))?;
    }
    for line in 0..3 {
        for side in [Side::Zero, Side::One] {
            let share = share_of(alloc, line, side, false)?;
            drawn.events.push(Event::Upload {
                side,
                pass: 0,
                share,
            })?;
        }
    }
    drawn.events.push(Event::Seal)?;
    for _ in 0..16 {
        phase(alloc, &mut draws, &mut drawn)?;
    }
    Ok(drawn)
}
