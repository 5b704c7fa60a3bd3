//! The whole walk, from level 1 to the level at which it ends.
//! The answer and the refusal by the cap are those of the definition.

ghost use Rattle.std.specs.Prelude.{◌≡◌, ◌<◌, ◌≤◌, ◌^◌, IfOk, IfErr, length};
ghost use Rattle.walk_definitions.specs.Walk.{done, walk};
ghost use Rattle.plain_walk.specs.Chosen.{AllHave};
ghost use Rattle.plain_walk.specs.Levels.{IsEndedBy};

use crate::answers::Answer;
use crate::levels::{Level, level_of};
use crate::live::all_alive;
use crate::reports::{Report, Settings};
use frontier_walk::{Frontier, Next, PruneError};
use prefix_bits::MOST_BITS;
use std::alloc::Global;

/// The walk over a batch of fewer than 2^31 reports whose shares all have `bits` levels, 8 to `MOST_BITS`, at a threshold
/// of at least 1 and a cap of 2 to 65536 candidates.
///
/// `Cap` comes only where the walk is capped, with its level and twice the number of that level's survivors. `Memory` is
/// want of memory.
pub fn walk(alloc: Global, batch: &[Report], settings: &Settings) -> Result<Answer, PruneError>
    requires bits { (8 ≤ settings.now.bits) × (settings.now.bits ≤ MOST_BITS) }
    requires cap { (2 ≤ settings.now.cap) × (settings.now.cap ≤ 65536) }
    requires threshold { 1 ≤ settings.now.threshold }
    requires levels { AllHave settings.now.bits batch.now }
    requires few { length batch.now < 2 ^ 31 }
    ensures answer { IfOk result (λ a. walk settings.now batch.now ≡ done a.levels a.passed a.heavy.items) }
    ensures sealed { IfOk result (λ a. a.sealed ≡ length batch.now) }
    ensures cause { IfErr result (λ e. IsEndedBy (walk settings.now batch.now) e) }
{
    let mut alive = all_alive(alloc, batch)?;
    let mut frontier = Frontier::first(alloc, settings.bits, settings.cap)?;
    'levels: loop {
        let Level {
            alive: still_alive,
            passed,
            next,
        } = level_of(alloc, settings, &frontier, batch, alive)?;
        match next {
            Next::Done(heavy) => {
                return Ok(Answer {
                    sealed: batch.len() as u32,
                    passed,
                    levels: frontier.level(),
                    heavy,
                });
            }
            Next::Level(next) => {
                alive = still_alive;
                frontier = next;
            }
        }
    }
}
