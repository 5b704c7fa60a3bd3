//! Adds the part of a tile to the sums of a phase, in place.
//! Only the tile's own range changes.

ghost use Rattle.std.specs.Prelude.{◌≡◌, ◌≤◌, length, slice_range};
ghost use Rattle.definitions.specs.Sketch.{sums_added};
ghost use Rattle.walk_definitions.specs.Heard.{paired};
ghost use Rattle.phase_state.specs.Loops.{FitsTile, sums_with, totals_with};

use crate::part::Part;
use field64::Fe;
use lane_sums::add_into;
use sketch_check::{Sums, open};
use tile_claims::Tile;

/// Adds sums place by place.
pub fn add_sums(into: &mut [Sums], part: &[Sums])
    requires same { length into.old ≡ length part.now }
    ensures { into.new ≡ paired sums_added into.old part.now }
{
    for place in 0..into.len() {
        into[place] = open(&into[place], &part[place]);
    }
}

/// Adds the part of a tile.
pub fn add_part(sums: &mut [Sums], totals: &mut [Fe], tile: &Tile, part: &Part<'_>)
    requires fits { FitsTile tile.now part.now (length sums.old) (length totals.old) }
    ensures sums { sums.new ≡ sums_with tile.now part.now sums.old }
    ensures totals { totals.new ≡ totals_with tile.now part.now totals.old }
{
    match part {
        Part::Sketch(more) => add_sums(&mut sums[tile.r0 as usize..tile.r1 as usize], more),
        Part::Totals(more) => add_into(&mut totals[tile.c0 as usize..tile.c1 as usize], more),
    }
}
