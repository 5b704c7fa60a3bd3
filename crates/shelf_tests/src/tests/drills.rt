//! A drill of three tiles over the open gate, a tally behind it, a held worker and a held uploader that see another one come.
//! Which tiles are left out is worked by hand.

use definitions::Side;
use gates::{DrillGate, Hold, HoldGate, TallyGate};
use shelf_io::{Gate, OpenGate, Say};
use std::thread::join;

#[test]
fn each_third_tile_is_left_out(rt: HostRuntime) {
    let gate = DrillGate {
        n: 3,
        inner: &OpenGate,
    };
    assert_eq!(rt; gate.at(Side::Zero, 0, 1), Say::Go);
    assert_eq!(rt; gate.at(Side::One, 5, 2), Say::Abandon);
    let none = DrillGate { n: 0, inner: &gate };
    assert_eq!(rt; none.at(Side::Zero, 0, 2), Say::Abandon);
    assert_eq!(rt; none.at(Side::Zero, 0, 3), Say::Go);
}

#[test]
fn found_nodes_are_added_up(rt: HostRuntime) {
    let tally = TallyGate::new();
    let gate = DrillGate {
        n: 2,
        inner: &tally,
    };
    assert_eq!(rt; gate.at(Side::One, 0, 0), Say::Go);
    gate.found(Side::Zero, 0, 0, 7);
    gate.found(Side::One, 3, 5, 0);
    join(
        &rt,
        || tally.found(Side::One, 1, 1, 10),
        || tally.found(Side::Zero, 2, 2, 300),
    );
    assert_eq!(rt; tally.seen(), 317);
}

#[test]
fn a_worker_is_held_until_another_comes(rt: HostRuntime) {
    let gate = HoldGate::new(Side::Zero, Hold::Tile);
    gate.at_upload(Side::Zero, 0);
    assert_eq!(rt; gate.at(Side::One, 0, 0), Say::Go);
    assert!(rt; !gate.asked());
    join(
        &rt,
        || gate.at(Side::Zero, 0, 0),
        || gate.at(Side::Zero, 1, 1),
    );
    assert!(rt; gate.asked());
    assert!(rt; gate.met());
}

#[test]
fn an_uploader_is_held_until_another_comes(rt: HostRuntime) {
    let gate = HoldGate::new(Side::One, Hold::Upload);
    assert_eq!(rt; gate.at(Side::One, 0, 0), Say::Go);
    assert!(rt; !gate.asked());
    join(
        &rt,
        || gate.at_upload(Side::One, 0),
        || gate.at_upload(Side::One, 1),
    );
    assert!(rt; gate.asked());
    assert!(rt; gate.met());
}
