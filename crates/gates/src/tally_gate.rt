//! The gate that adds up how many nodes of the tiles were made from a parent's node in a cache.
//! It shows that a program uses its caches. It never leaves a tile out.

ghost use Rattle.std.specs.Prelude.{Some};

use definitions::Side;
use shelf_io::{Gate, Say};
use std::sync::atomic::{AtomicU64, Ordering};

/// Counts what `found` is told, over both sides and all workers. It always says Go.
#[derive(Drop)]
pub struct TallyGate {
    nodes: AtomicU64,
}

impl TallyGate {
    /// A gate that was told of no tile yet.
    pub fn new() -> TallyGate {
        TallyGate {
            nodes: AtomicU64::new(0),
        }
    }

    /// The sum, modulo 2^64, of the numbers of nodes that it was told. No clause speaks of it: it is what threads left in a cell.
    pub fn seen(&self) -> u64 {
        self.nodes.load(Ordering::SeqCst)
    }
}

impl Gate for TallyGate {
    ghost use Rattle.shelf_io.specs.Gates.{never};

    ghost rule = { λ _. Some never };

    fn at(&self, _side: Side, _worker: u32, _tile: u32) -> Say {
        Say::Go
    }

    fn at_upload(&self, _side: Side, _uploader: u32) {}

    fn found(&self, _side: Side, _worker: u32, _tile: u32, nodes: u64) {
        self.nodes.fetch_add(nodes, Ordering::SeqCst);
    }
}
