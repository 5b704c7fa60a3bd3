//! The gate that leaves out each n-th tile, and else does as another gate.
//! The sweep is tried with it.

ghost use Rattle.std.specs.Prelude.{option_map};

use definitions::Side;
use shelf_io::{Gate, Say};

/// Says Abandon where `n` is not 0 and the tile's number, counted from 1, is a multiple of `n`; else it asks `inner`.
/// Uploads and finished tiles are told to `inner`.
#[derive(Drop)]
pub struct DrillGate<'g, G> {
    pub n: u32,
    pub inner: &'g G,
}

impl<'g, G: Gate> Gate for DrillGate<'g, G> {
    ghost use Rattle.gates.specs.Drills.{drilled};

    ghost rule = { λ gate. option_map (drilled gate.n) (G.rule gate.inner.now) };

    fn at(&self, side: Side, worker: u32, tile: u32) -> Say {
        if self.n != 0 && (u64::from(tile) + 1) % u64::from(self.n) == 0 {
            return Say::Abandon;
        }
        self.inner.at(side, worker, tile)
    }

    fn at_upload(&self, side: Side, uploader: u32) {
        self.inner.at_upload(side, uploader)
    }

    fn found(&self, side: Side, worker: u32, tile: u32, nodes: u64) {
        self.inner.found(side, worker, tile, nodes)
    }
}
