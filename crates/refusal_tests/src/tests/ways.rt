//! What is to change nothing: sinks that take little at a time, workers, and tiles that are left to the sweep.

use super::trial::{NOTHING_FAILS, Trial, tried};
use super::{CAPPED, EVAL, FIND, GEN, MAKE, RUN, Whole, filled, is_whole};
use std::alloc::AllocError;

#[test]
fn sinks_that_bite_get_all(rt: HostRuntime) -> Result<(), AllocError> {
    let files = filled(&rt, rt.alloc())?;
    for whole in [EVAL, GEN, RUN, FIND, MAKE, CAPPED] {
        for most in [1, 2, 7, 4096] {
            let trial = Trial {
                most,
                ..NOTHING_FAILS
            };
            let ended = tried(&rt, rt.alloc(), &files, whole.row, trial)?;
            assert!(rt; is_whole(whole, &ended), "bites of {most} of {}", whole.row);
        }
    }
    Ok(())
}

// The words of a walk before its further options and behind them, and what it gives.
const WALKS: [(&str, &str, Whole); 3] = [
    ("run --threshold 2", " f0 f1", RUN),
    ("find --width 2 --threshold 2", " s", FIND),
    ("make --reports 3 --width 1 --threshold 1", "", MAKE),
];

#[test]
fn drills_and_workers_change_nothing(rt: HostRuntime) -> Result<(), AllocError> {
    let files = filled(&rt, rt.alloc())?;
    for (front, rest, whole) in WALKS {
        for drill in 0..4 {
            for workers in [1, 4, 8] {
                let row = format!(in rt.alloc();
                    "{front} --drill {drill} --workers {workers}{rest}"
                )?;
                let ended = tried(&rt, rt.alloc(), &files, &row, NOTHING_FAILS)?;
                assert!(rt; is_whole(whole, &ended), "at {row}");
            }
        }
    }
    Ok(())
}
