//! The gate that is always open.
//! The shipped program runs with it.

ghost use Rattle.std.specs.Prelude.{Some};

use crate::gate::{Gate, Say};
use definitions::Side;

/// Always says Go: it tells the rule that never holds.
#[derive(Clone, Copy, Debug, PartialEq, Eq)]
pub struct OpenGate;

impl Gate for OpenGate {
    ghost use Rattle.shelf_io.specs.Gates.{never};

    ghost rule = { λ _. Some never };

    fn at(&self, _side: Side, _worker: u32, _tile: u32) -> Say {
        Say::Go
    }

    fn at_upload(&self, _side: Side, _uploader: u32) {}

    fn found(&self, _side: Side, _worker: u32, _tile: u32, _nodes: u64) {}
}
