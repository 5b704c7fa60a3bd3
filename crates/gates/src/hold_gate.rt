//! The gate that holds the first worker or uploader of a side until another one of that side has come.
//! It shows that they work at the same time. It never leaves a tile out.

ghost use Rattle.std.specs.Prelude.{Some};

use definitions::Side;
use shelf_io::{Gate, Say};
use std::sync::atomic::{AtomicU64, Ordering};
use std::thread;

/// What a [`HoldGate`] holds.
#[derive(Clone, Copy, Debug, PartialEq, Eq)]
pub enum Hold {
    /// The first tile that is asked for.
    Tile,
    /// The first upload.
    Upload,
}

/// Holds the first tile or the first upload of one side until another worker or uploader of that side has come, for at most
/// 2^30 turns, between which it yields. It always says Go.
#[derive(Drop)]
pub struct HoldGate {
    side: Side,
    hold: Hold,
    came: AtomicU64,
    met: AtomicU64,
}

impl HoldGate {
    /// A gate that was not asked yet.
    pub fn new(side: Side, hold: Hold) -> HoldGate {
        HoldGate {
            side,
            hold,
            came: AtomicU64::new(0),
            met: AtomicU64::new(0),
        }
    }

    /// Whether it was asked for what it holds. No clause speaks of it: it is what threads left in a cell.
    pub fn asked(&self) -> bool {
        self.came.load(Ordering::SeqCst) > 0
    }

    /// Whether the held call saw another one come. No clause speaks of it either.
    pub fn met(&self) -> bool {
        self.met.load(Ordering::SeqCst) > 0
    }

    /// The first to come waits here for the second.
    fn come(&self) {
        if self.came.fetch_add(1, Ordering::SeqCst) > 0 {
            return;
        }
        for turn in 0..1 << 30 {
            if self.came.load(Ordering::SeqCst) > 1 {
                self.met.store(1, Ordering::SeqCst);
                return;
            }
            if turn % 16 == 15 {
                thread::yield_now();
            }
        }
    }
}

impl Gate for HoldGate {
    ghost use Rattle.shelf_io.specs.Gates.{never};

    ghost rule = { λ _. Some never };

    fn at(&self, side: Side, _worker: u32, _tile: u32) -> Say {
        if self.hold == Hold::Tile && side == self.side {
            self.come();
        }
        Say::Go
    }

    fn at_upload(&self, side: Side, _uploader: u32) {
        if self.hold == Hold::Upload && side == self.side {
            self.come();
        }
    }

    fn found(&self, _side: Side, _worker: u32, _tile: u32, _nodes: u64) {}
}
