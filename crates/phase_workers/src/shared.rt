//! What the workers of one phase share.
//! The claims are of the tiles of the level's plan, and the cache is of its side and its shares.

ghost use Rattle.std.specs.Prelude.{◌≡◌};
ghost use Rattle.tile_claims.specs.Plans.{tiles_of};

use eval_cache::EvalCache;
use level_totals::Level;
use tile_claims::Claims;

/// The claims, the level, the cache and the gate of one phase.
#[derive(Drop)]
pub struct Shared<'t, 'a, 's, G> {
    pub claims: &'t Claims,
    pub level: &'t Level<'a>,
    pub cache: &'t EvalCache<'s>,
    pub gate: &'t G,
    pub ghost tiles: { claims.now.tiles ≡ tiles_of level.now.plan.tiles },
    pub ghost side: { cache.now.side ≡ level.now.plan.side },
    pub ghost shares: { cache.now.shares ≡ level.now.plan.shares },
}
