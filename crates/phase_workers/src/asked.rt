//! A gate as one side's workers ask it and tell it of what they made.
//! It is not said here that threads may share it, so that what asks it can be called by the method of a trait.

ghost use Rattle.std.specs.Prelude.{◌≡◌, true};
ghost use Rattle.shelf_io.specs.Gates.{is_abandon};

use definitions::Side;
use shelf_io::{Gate, Say};

/// What a worker asks after each claim. It may tell which tiles it leaves out.
pub trait Asked {
    ghost use Rattle.std.specs.Prelude.{ℕ, Bool};

    /// Whether it tells.
    ghost tells: { Self → Bool };

    /// The tiles that it leaves out, where it tells.
    ghost rule: { Self → ℕ → Bool };

    /// Asked after each claim.
    fn ask(&self, worker: u32, tile: u32) -> Say
        ensures { Self.tells self.now ≡ true → is_abandon result ≡ Self.rule self.now tile };

    /// Told of each tile whose sums were made, and how many of its nodes were made from one that the cache gave.
    fn found(&self, worker: u32, tile: u32, nodes: u64);
}

/// A gate, asked for the tiles of one side.
#[derive(Drop)]
pub struct AtGate<'g, G> {
    pub side: Side,
    pub gate: &'g G,
}

impl<'g, G: Gate> Asked for AtGate<'g, G> {
    ghost use Rattle.phase_workers.specs.Gates.{tells_of, rule_of};

    ghost tells = { λ asked. tells_of (G.rule asked.gate.now) };

    ghost rule = { λ asked tile. rule_of (G.rule asked.gate.now) asked.side tile };

    fn ask(&self, worker: u32, tile: u32) -> Say {
        self.gate.at(self.side, worker, tile)
    }

    fn found(&self, worker: u32, tile: u32, nodes: u64) {
        self.gate.found(self.side, worker, tile, nodes)
    }
}
