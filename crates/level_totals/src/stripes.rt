//! The stripes of a level: each candidate block of its plan belongs to one of them.
//! Posts to different stripes do not wait for each other.

ghost use Rattle.std.specs.Prelude.{◌≡◌, ◌<◌};
ghost use Rattle.tile_claims.specs.Plans.{tiles_of};
ghost use Rattle.level_totals.specs.Stripes.{stripes_of, stripe_of};

use tile_claims::TilePlan;

/// The most stripes that a level has.
const MOST_STRIPES: u32 = 4;

/// The number of stripes of a plan: that of its candidate blocks, but at least 1 and at most 4.
pub(crate) fn stripes_of(plan: &TilePlan) -> u32
    ensures { result ≡ stripes_of plan.now }
{
    MOST_STRIPES.min(plan.blocks()).max(1)
}

/// The stripe of a tile, counted from 0: the number of its candidate block, modulo the number of stripes.
pub(crate) fn stripe_of(plan: &TilePlan, tile: u32) -> u32
    requires { tile < tiles_of plan.now }
    ensures value { result ≡ stripe_of plan.now tile }
    ensures below { result < stripes_of plan.now }
{
    tile % plan.blocks() % stripes_of(plan)
}
