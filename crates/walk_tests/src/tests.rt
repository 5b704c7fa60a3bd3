//! What no clause says of a walk: that its threads run and overlap, that its gate is asked behind the drill, and that a real walk
//! comes to what its strings say.

use crate::trial::PLAIN;
use crate::{Outline, Pairs, Way, outline_of, walked};
use gates::{Hold, HoldGate};
use pair_run::PairError;
use prefix_bits::Side;
use shelf_io::{Call, FirmLink, MemoryLink, OpenGate};
use std::alloc::AllocError;

#[test]
fn strings_are_found_at_each_threshold(rt: HostRuntime) -> Result<(), AllocError> {
    for (threshold, levels, found, first) in [
        (2, 16, 1, 2),
        (1, 16, 2, 2),
        (3, 16, 0, 0),
        (4, 1, 0, 0),
    ] {
        let pairs = Pairs::three(rt.alloc())?;
        let mut link = FirmLink::new(rt.alloc());
        let answer = walked(
            &rt,
            rt.alloc(),
            pairs,
            threshold,
            &PLAIN,
            &mut link,
            &OpenGate,
        );
        let wanted = Outline {
            reports: (3, 3),
            levels,
            found,
            first,
        };
        assert!(rt; outline_of(&answer) == Some(wanted));
    }
    Ok(())
}

#[test]
fn no_way_changes_the_answer(rt: HostRuntime) -> Result<(), AllocError> {
    for (workers, drill, cache, by_reports, by_candidates) in [
        (1, 0, 1, 1, 1),
        (8, 0, 4096, 2, 3),
        (8, 1, 1, 1, 1),
        (1, 3, 4096, 2, 3),
        (8, 3, 1, 64, 64),
    ] {
        let way = Way {
            workers,
            uploaders: workers,
            drill,
            cache,
            by_reports,
            by_candidates,
        };
        let pairs = Pairs::three(rt.alloc())?;
        let mut link = FirmLink::new(rt.alloc());
        let answer = walked(&rt, rt.alloc(), pairs, 1, &way, &mut link, &OpenGate);
        let wanted = Outline {
            reports: (3, 3),
            levels: 16,
            found: 2,
            first: 2,
        };
        assert!(rt; outline_of(&answer) == Some(wanted));
        assert!(rt; link.sent(95).is_some());
        assert!(rt; link.sent(96).is_none());
    }
    Ok(())
}

// The workload of 512 reports at threshold 8.
const WORKLOAD: Outline = Outline {
    reports: (512, 512),
    levels: 16,
    found: 6,
    first: 256,
};

#[test]
fn workers_overlap(rt: HostRuntime) -> Result<(), AllocError> {
    let way = Way {
        workers: 2,
        ..PLAIN
    };
    let gate = HoldGate::new(Side::Zero, Hold::Tile);
    let pairs = Pairs::workload(rt.alloc(), 512)?;
    let mut link = FirmLink::new(rt.alloc());
    let answer = walked(&rt, rt.alloc(), pairs, 8, &way, &mut link, &gate);
    assert!(rt; outline_of(&answer) == Some(WORKLOAD));
    assert!(rt; gate.asked());
    assert!(rt; gate.met());
    Ok(())
}

#[test]
fn uploads_overlap(rt: HostRuntime) -> Result<(), AllocError> {
    let way = Way {
        uploaders: 2,
        ..PLAIN
    };
    let gate = HoldGate::new(Side::Zero, Hold::Upload);
    let pairs = Pairs::workload(rt.alloc(), 512)?;
    let mut link = FirmLink::new(rt.alloc());
    let answer = walked(&rt, rt.alloc(), pairs, 8, &way, &mut link, &gate);
    assert!(rt; outline_of(&answer) == Some(WORKLOAD));
    assert!(rt; gate.asked());
    assert!(rt; gate.met());
    Ok(())
}

#[test]
fn a_drill_of_each_tile_asks_no_gate(rt: HostRuntime) -> Result<(), AllocError> {
    let way = Way { drill: 1, ..PLAIN };
    let gate = HoldGate::new(Side::Zero, Hold::Tile);
    let pairs = Pairs::three(rt.alloc())?;
    let mut link = FirmLink::new(rt.alloc());
    let answer = walked(&rt, rt.alloc(), pairs, 2, &way, &mut link, &gate);
    assert!(rt; outline_of(&answer).is_some());
    assert!(rt; !gate.asked());
    Ok(())
}

#[test]
fn an_empty_batch_sends_six_messages(rt: HostRuntime) -> Result<(), AllocError> {
    let mut link = FirmLink::new(rt.alloc());
    let none = Pairs::new(rt.alloc());
    let answer = walked(&rt, rt.alloc(), none, 1, &PLAIN, &mut link, &OpenGate);
    let wanted = Outline {
        reports: (0, 0),
        levels: 1,
        found: 0,
        first: 0,
    };
    assert!(rt; outline_of(&answer) == Some(wanted));
    let sums: &[u8] = &[1, 0, 1, 0, 0, 0, 0];
    let sigmas: &[u8] = &[2, 0, 1, 0, 0, 0, 0];
    let totals: &[u8] = &[
        3, 0, 1, 0, 0, 0, 2, 0, 0, 0, 0, 0, 0, 0, 0, 0, 0, 0, 0, 0, 0, 0, 0,
    ];
    for (place, bytes) in [sums, sums, sigmas, sigmas, totals, totals]
        .iter()
        .enumerate()
    {
        let side = if place % 2 == 0 {
            Side::Zero
        } else {
            Side::One
        };
        assert!(rt; link.sent(place as u32) == Some((side, *bytes)));
    }
    assert!(rt; link.sent(6).is_none());
    Ok(())
}

#[test]
fn a_failing_link_ends_the_walk(rt: HostRuntime) -> Result<(), AllocError> {
    let pairs = Pairs::three(rt.alloc())?;
    let mut fail = Vec::new(rt.alloc());
    fail.push((Call::Send, 3))?;
    let mut link = MemoryLink::new(rt.alloc(), fail);
    let answer = walked(&rt, rt.alloc(), pairs, 2, &PLAIN, &mut link, &OpenGate);
    assert!(rt; matches!(answer, Some(Err(PairError::Link))));
    assert!(rt; link.sent(1).is_some());
    assert!(rt; link.sent(2).is_none());
    Ok(())
}
