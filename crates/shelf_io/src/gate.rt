//! The trait of a gate, which workers and uploaders ask as they go on.
//! It may tell a rule that its answers keep; else it promises nothing.

ghost use Rattle.std.specs.Prelude.{◌≡◌, IfSome};
ghost use Rattle.shelf_io.specs.Gates.{is_abandon};

use definitions::Side;

/// What a gate says of a claimed tile.
#[derive(Clone, Copy, Debug, PartialEq, Eq)]
pub enum Say {
    /// The worker evaluates the tile and posts it.
    Go,
    /// The worker leaves the tile, which the sweep then posts.
    Abandon,
}

/// Is asked after each claim and told of each upload, by many threads at once.
pub trait Gate: Sync {
    ghost use Rattle.std.specs.Prelude.{Option};
    ghost use Rattle.shelf_io.specs.Gates.{Rule};

    /// The tiles of each side that it leaves out, where it tells.
    ghost rule: { Self → Option Rule };

    /// Asked after each claim. Where the gate tells its rule, it says Abandon exactly where the rule holds.
    fn at(&self, side: Side, worker: u32, tile: u32) -> Say
        ensures ruled { IfSome (rule self.now) (λ rule. is_abandon result ≡ rule side tile) };

    /// Called before each upload.
    fn at_upload(&self, side: Side, uploader: u32);

    /// Called each time the sums of a tile were made, in the sweep too, where `worker` is the number of workers. `nodes` is
    /// the number of that tile's nodes that were evaluated from a parent's node in the cache. No clause speaks of it.
    fn found(&self, side: Side, worker: u32, tile: u32, nodes: u64);
}
